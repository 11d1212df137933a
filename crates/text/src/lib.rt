// Texts in bytes.
#![tactic(auto)]

ghost use Rattle.std.specs.Prelude.{◌≡◌};
ghost use Rattle.text.specs.Text.{same, among, starts_with};

// Whether two slices hold the same bytes.
// Internal: for the crates above.
pub fn equal(a: &[u8], b: &[u8]) -> bool
    ensures { result ≡ same a.now b.now }
{
    if a.len() != b.len() {
        return false;
    }
    // The library compares many bytes at once, which a short text does not repay.
    if 8 < a.len() {
        return a == b;
    }
    for i in 0..a.len() {
        if a[i] != b[i] {
            return false;
        }
    }
    true
}

// Whether s begins with the prefix.
// Internal: for the crates above.
pub fn starts_with(s: &[u8], prefix: &[u8]) -> bool
    ensures { result ≡ starts_with s.now prefix.now }
{
    // Not the library's own test: a wrong one would not be refused at a fact.
    let n = prefix.len();
    if s.len() < n {
        return false;
    }
    equal(&s[0..n], prefix)
}

// Whether c is one of the bytes.
// Internal: for the crates above.
pub fn among(c: u8, bytes: &[u8]) -> bool
    ensures { result ≡ among c bytes.now }
{
    // The library's own search takes three times as long over so few bytes.
    for i in 0..bytes.len() {
        if c == bytes[i] {
            return true;
        }
    }
    false
}
