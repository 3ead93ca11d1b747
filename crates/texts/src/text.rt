// Texts put into a buffer.
ghost use Rattle.std.specs.Prelude.{◌++◌, ◌≡◌, ◌+◌, ◌≤◌, length};
ghost use Rattle.texts.specs.Text.{decimal, pair, line_of, line_size, used_by, put_at, Put};

// An answer as it is printed: `refused`, number and place; or `0`, byte-times passed and the ended frame's row.
// (No Result: its two pairs of numbers would lose the names of what they are.)
#[derive(Clone, Copy)]
pub enum Answer {
    Refused(u64, u64),
    Passed(u64, u64),
}

// The most bytes that an answer's line has.
pub const LINE_SIZE: usize = 50;

// Puts a text behind the first `at` bytes of a buffer, and answers how many bytes are in use then. Where it finds no room nothing is put.
pub fn put(out: &mut [u8], at: usize, text: &[u8]) -> usize
    ensures value { result ≡ used_by text.now at out.old }
    ensures out_after { out.new ≡ put_at text.now at out.old }
{
    let end = at.saturating_add(text.len());
    if out.len() < end {
        return at;
    }
    out[at..end].copy_from_slice(text);
    end
}

// A number's digits, put as a text is. A number has at most 20.
pub fn put_number(out: &mut [u8], at: usize, n: u64) -> usize
    ensures value { result ≡ used_by (decimal n) at out.old }
    ensures out_after { out.new ≡ put_at (decimal n) at out.old }
{
    let mut digits = [0u8; 20];
    let k = io::decimal(n, &mut digits);
    put(out, at, &digits[..k])
}

// A head, two numbers, and the line's end.
fn put_pair(out: &mut [u8], head: &[u8], x: u64, y: u64) -> usize
    requires { length head.now + 42 ≤ length out.old }
    ensures { Put (length head.now + 42) (head.now ++ pair x y) out.old 0 out.new result }
{
    let start = put(out, 0, head);
    let first = put_number(out, start, x);
    let gap = put(out, first, b" ");
    let second = put_number(out, gap, y);
    put(out, second, b"\n")
}

fn spell(out: &mut [u8], a: Answer) -> usize
    requires { line_size ≤ length out.old }
    ensures { Put line_size (line_of a) out.old 0 out.new result }
{
    match a {
        Answer::Refused(number, place) => put_pair(out, b"refused ", number, place),
        Answer::Passed(passed, row) => put_pair(out, b"0 ", passed, row),
    }
}

// An answer's line, put as a text is.
pub fn put_answer(out: &mut [u8], at: usize, a: Answer) -> usize
    ensures value { result ≡ used_by (line_of a) at out.old }
    ensures out_after { out.new ≡ put_at (line_of a) at out.old }
{
    let mut line = [0u8; LINE_SIZE];
    let n = spell(&mut line, a);
    put(out, at, &line[..n])
}
