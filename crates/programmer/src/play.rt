ghost use Rattle.std.specs.Prelude.{◌≡◌, ◌+◌, ◌-◌, ◌<◌, min, length};
ghost use Rattle.pool.specs.Pools.{Meaning};
ghost use Rattle.programmer.specs.Agreement.{Agrees, view};
ghost use Rattle.programmer.specs.Course.{Acts, After, History, answer_of_result, asked, shown_by, tells};
ghost use Rattle.programmer.specs.Ledger.{opened, show as Show};

use crate::Programmer;
use codec::fault::Fault;
use pool::Pool;

/// A call of a list. The area of a show is given by its length.
#[derive(Clone, Copy)]
pub enum Call<'a> {
    Adopt {
        bytes: &'a [u8],
    },
    Put {
        shelf: u32,
        type_number: u32,
        bytes: &'a [u8],
    },
    Show {
        shelf: u32,
        room: usize,
    },
    Spare,
    Empty {
        shelf: u32,
    },
}

/// What a call of a list that is not refused is answered: granted, so many bytes shown, or so many cells spare.
#[derive(Clone, Copy)]
pub enum Answer {
    Granted,
    Shown(usize),
    Spare(u32),
}

impl Answer {
    /// How many bytes are shown.
    pub fn shown(self) -> usize
        ensures { result ≡ shown_by self }
    {
        match self {
            Answer::Shown(count) => count,
            Answer::Granted | Answer::Spare(_) => 0,
        }
    }
}

/// What a list of calls begins with: the cells that are free at the making, the box number, and the length of the area that shows are cut from.
#[derive(Clone, Copy)]
pub struct Making {
    pub cells: u32,
    pub box_number: u32,
    pub room: usize,
}

/// Who listens while a list of calls is played.
pub trait Listener<P: Pool> {
    /// Called before the first call and after each, with the programmer as it then is: `calls` are those made so far, `answer` is the last one's and `shown` the
    /// bytes that it shows. The clause is what holds each time.
    fn hear(
        &mut self,
        making: Making,
        calls: &[Call],
        answer: Option<Result<Answer, Fault>>,
        shown: &[u8],
        programmer: &Programmer<P>,
    )
        requires { After P.Pool.means making calls.now answer shown.now programmer.now };
}

// The answer of a call that is granted or refused.
fn plain_answer(res: Result<(), Fault>) -> Result<Answer, Fault>
    ensures { result ≡ answer_of_result res }
{
    res.map(|()| Answer::Granted)
}

// A show of a list, in the front of the area.
fn show_front<P: Pool>(
    programmer: &Programmer<P>,
    shelf: u32,
    room: usize,
    area: &mut [u8],
) -> Result<Answer, Fault>
    ensures acts { Acts P.Pool.means (Show shelf (min room (length area.old))) (tells result area.new) programmer.now programmer.now }
    ensures long { length area.new ≡ length area.old }
{
    let room = room.min(area.len());
    let count = programmer.show(shelf, &mut area[..room])?;
    Ok(Answer::Shown(count))
}

// One call of a list.
fn perform<P: Pool>(
    programmer: &mut Programmer<P>,
    call: Call,
    area: &mut [u8],
) -> Result<Answer, Fault>
    ensures acts { Acts P.Pool.means (asked (length area.old) call.entry) (tells result area.new) programmer.old programmer.new }
    ensures long { length area.new ≡ length area.old }
{
    match call {
        Call::Adopt { bytes } => plain_answer(programmer.adopt(bytes)),
        Call::Put {
            shelf,
            type_number,
            bytes,
        } => plain_answer(programmer.put(shelf, type_number, bytes)),
        Call::Show { shelf, room } => show_front(programmer, shelf, room, area),
        Call::Spare => Ok(Answer::Spare(programmer.spare())),
        Call::Empty { shelf } => plain_answer(programmer.empty(shelf)),
    }
}

// Plays the calls, and lets the listener hear before the first and after each.
fn play_on<P: Pool, L: Listener<P>>(
    programmer: &mut Programmer<P>,
    making: Making,
    calls: &[Call],
    area: &mut [u8],
    listener: &mut L,
)
    requires room { making.room ≡ length area.old }
    requires agrees { (made : Meaning) × (made.free ≡ making.cells) × Agrees made (opened making.cells making.box_number) (P.Pool.means programmer.old.pool) (view programmer.old) }
    ensures { (made : Meaning) → made.free ≡ making.cells → Agrees made (opened making.cells making.box_number) (P.Pool.means programmer.old.pool) (view programmer.old) → History P.Pool.means made (opened making.cells making.box_number) (length area.old) calls.now programmer.new }
{
    listener.hear(making, &calls[..0], None, &area[..0], programmer);
    for (i, call) in calls.iter().enumerate() {
        let answer = perform(programmer, *call, area);
        let count = answer.map_or(0, Answer::shown).min(area.len());
        listener.hear(
            making,
            &calls[..=i],
            Some(answer),
            &area[..count],
            programmer,
        );
    }
}

/// Makes a programmer over the pool and plays the calls, one after another; the areas of shows are cut from the one lent here. The listener hears before the
/// first call and after each; its clause and this one's say what then holds, whatever the pool and the calls.
pub fn play<P: Pool, L: Listener<P>>(
    pool: P,
    box_number: u32,
    calls: &[Call],
    area: &mut [u8],
    listener: &mut L,
) -> Programmer<P>
    ensures { History P.Pool.means (P.Pool.means pool) (opened (P.Pool.means pool).free box_number) (length area.old) calls.now result }
{
    let cells = pool.count();
    let making = Making {
        cells,
        box_number,
        room: area.len(),
    };
    let mut programmer = Programmer::new(pool, box_number);
    play_on(&mut programmer, making, calls, area, listener);
    programmer
}
