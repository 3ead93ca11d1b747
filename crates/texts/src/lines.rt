// A line of the input, byte by byte: the call that it states.
ghost use Rattle.std.specs.Prelude.{◌≡◌, true, ◌≤◌};
ghost use Rattle.texts.specs.Lines.{is_digit, grown, letter_of, space_of, digit_of, first_digit_of};
ghost use Rattle.texts.specs.Lines.{spaced_of, ended_of, in_number_of, step_of};

// A call that a line states.
#[derive(Clone, Copy)]
pub enum Call {
    Offer(u64, u64),
    Best(u64),
    Advance(u64),
}

// The number that a line goes on to: an offer's row, the payload of an offer to this row, a best-effort payload, an
// advance's count.
#[derive(Clone, Copy)]
pub enum Wanted {
    Row,
    Payload(u64),
    Best,
    Count,
}

// A line so far: nothing, its letter, a space, or digits and the number that they state.
#[derive(Clone, Copy)]
pub enum Line {
    Empty,
    Letter(Wanted),
    Space(Wanted),
    Digits(Wanted, u64),
}

// What a byte makes of a line: it goes on, it is a whole call, or it is of another form.
#[derive(Clone, Copy)]
pub enum Stepped {
    More(Line),
    Whole(Call),
    Other,
}

// A number with one more digit. One too large for 64 bits becomes the largest there is: every rule refuses both alike.
fn with_digit(n: u64, d: u64) -> u64
    requires { d ≤ 9 }
    ensures { result ≡ grown n d }
{
    n.saturating_mul(10).saturating_add(d)
}

// The first byte of a line.
fn letter(b: u8) -> Stepped
    ensures { result ≡ letter_of b }
{
    match b {
        b'o' => Stepped::More(Line::Letter(Wanted::Row)),
        b'b' => Stepped::More(Line::Letter(Wanted::Best)),
        b'a' => Stepped::More(Line::Letter(Wanted::Count)),
        _ => Stepped::Other,
    }
}

// The byte behind the letter.
fn space(k: Wanted, b: u8) -> Stepped
    ensures { result ≡ space_of k b }
{
    match b {
        b' ' => Stepped::More(Line::Space(k)),
        _ => Stepped::Other,
    }
}

// A digit of a number.
fn digit(k: Wanted, n: u64, b: u8) -> Stepped
    requires { is_digit b ≡ true }
    ensures { result ≡ digit_of k n b }
{
    Stepped::More(Line::Digits(k, with_digit(n, u64::from(b - b'0'))))
}

// The byte behind a space.
fn first_digit(k: Wanted, b: u8) -> Stepped
    ensures { result ≡ first_digit_of k b }
{
    match b {
        b'0'..=b'9' => digit(k, 0, b),
        _ => Stepped::Other,
    }
}

// A space behind a number: only a row has one.
fn spaced(k: Wanted, n: u64) -> Stepped
    ensures { result ≡ spaced_of k n }
{
    match k {
        Wanted::Row => Stepped::More(Line::Space(Wanted::Payload(n))),
        Wanted::Payload(_) | Wanted::Best | Wanted::Count => Stepped::Other,
    }
}

// The line's end behind a number: behind a row the payload is missing.
fn ended(k: Wanted, n: u64) -> Stepped
    ensures { result ≡ ended_of k n }
{
    match k {
        Wanted::Row => Stepped::Other,
        Wanted::Payload(row) => Stepped::Whole(Call::Offer(row, n)),
        Wanted::Best => Stepped::Whole(Call::Best(n)),
        Wanted::Count => Stepped::Whole(Call::Advance(n)),
    }
}

// The byte behind a digit.
fn in_number(k: Wanted, n: u64, b: u8) -> Stepped
    ensures { result ≡ in_number_of k n b }
{
    match b {
        b'0'..=b'9' => digit(k, n, b),
        b' ' => spaced(k, n),
        b'\n' => ended(k, n),
        _ => Stepped::Other,
    }
}

// What a byte makes of a line. The line's end is a byte like the others.
pub fn step(l: Line, b: u8) -> Stepped
    ensures { result ≡ step_of l b }
{
    match l {
        Line::Empty => letter(b),
        Line::Letter(k) => space(k, b),
        Line::Space(k) => first_digit(k, b),
        Line::Digits(k, n) => in_number(k, n, b),
    }
}
