// The tokens of a line: numbers in hexadecimal, and bytes in pairs of digits.
ghost use Rattle.std.specs.Prelude.{◌≡◌, ◌*◌, ◌<◌, ◌≤◌, ◌==◌, length, position, IfSome, Some};
ghost use Rattle.std.specs.Option.{option_map};
ghost use Rattle.replay.specs.Text.{digit_of, hex_of, word_at, token_at, pair_of, pairs_of};

// The place of the first byte b.
fn find(s: &[u8], b: u8) -> Option<usize>
    ensures { result ≡ position (λ x. x == b) s.now }
{
    s.iter().position(|x| *x == b)
}

// The tokens of a line from a place on. A space ends each: no token but the last ends with the line, and the last is
// never asked for.
#[derive(Drop)]
pub struct Tokens<'a> {
    line: &'a [u8],
    at: usize,
}

impl<'a> Tokens<'a> {
    pub fn of(line: &'a [u8]) -> Tokens<'a>
        ensures line { result.line.now ≡ line.now }
        ensures start { result.at ≡ 0 }
    {
        Tokens { line, at: 0 }
    }

    fn token(&mut self) -> Option<&'a [u8]>
        ensures line { self.new.line.now ≡ self.old.line.now }
        ensures value { option_map (λ w. (w.now, self.new.at)) result ≡ word_at self.old.line.now self.old.at }
    {
        let rest = self.line.get(self.at..)?;
        let end = find(rest, b' ')?;
        self.at += end + 1;
        Some(&rest[..end])
    }

    #[tactic(auto, unfolding(crate::specs::Text::token_at))]
    pub fn number(&mut self) -> Option<u64>
        ensures line { self.new.line.now ≡ self.old.line.now }
        ensures value { option_map (λ n. (n, self.new.at)) result ≡ token_at self.old.line.now self.old.at }
    {
        hex_number(self.token()?)
    }

    // Stores the bytes that are spelled after an x, and answers those that were stored.
    pub fn bytes<'b>(&mut self, out: &'b mut [u8]) -> Option<&'b [u8]>
        ensures { IfSome result (λ bytes. length bytes.now ≤ length out.old) }
    {
        let digits = self.token()?.strip_prefix(b"x")?;
        if digits.len() % 2 != 0 {
            return None;
        }
        let bytes = out.get_mut(..digits.len() / 2)?;
        store(digits, bytes)?;
        Some(bytes)
    }
}

#[tactic(auto, unfolding(crate::specs::Text::digit_of))]
fn digit(b: u8) -> Option<u64>
    ensures value { result ≡ digit_of b }
    ensures bound { IfSome result (λ d. d < 16) }
{
    match b {
        b'0'..=b'9' => Some(u64::from(b - b'0')),
        b'a'..=b'f' => Some(u64::from(b - b'a') + 10),
        _ => None,
    }
}

// A number of one digit or more that fits 64 bits.
fn hex_number(s: &[u8]) -> Option<u64>
    ensures { result ≡ hex_of s.now }
{
    if s.is_empty() {
        return None;
    }
    let mut v: u64 = 0;
    for b in s {
        let d = digit(*b)?;
        v = v.checked_mul(16)? + d;
    }
    Some(v)
}

// The byte that two digits spell.
#[tactic(auto, unfolding(crate::specs::Text::pair_of))]
fn pair(high: u8, low: u8) -> Option<u8>
    ensures { result ≡ pair_of high low }
{
    Some((digit(high)? * 16 + digit(low)?) as u8)
}

// Stores the bytes that pairs of digits spell, where they are digits.
fn store(s: &[u8], out: &mut [u8]) -> Option<()>
    requires { length s.now ≡ 2 * length out.old }
    ensures { option_map (λ _. out.new) result ≡ pairs_of s.now }
{
    for (i, x) in out.iter_mut().enumerate() {
        *x = pair(s[2 * i], s[2 * i + 1])?;
    }
    Some(())
}
