ghost use Rattle.std.specs.Prelude.{◌≡◌};
ghost use Rattle.codec.specs.Integer.{unzigzag as unzigzagged, zigzag as zigzagged};

// The number that an integer is written as: 2n, or -2n - 1 where it is below 0.
pub fn zigzag(n: i32) -> u32
    ensures code { result ≡ zigzagged n }
    ensures back { unzigzagged result ≡ n }
{
    if n >= 0 {
        2 * n as u32
    } else {
        2 * !n as u32 + 1
    }
}

// The integer that a number stands for.
pub fn unzigzag(code: u32) -> i32
    ensures integer { result ≡ unzigzagged code }
    ensures back { zigzagged result ≡ code }
{
    let half = (code / 2) as i32;
    if code % 2 == 0 { half } else { !half }
}
