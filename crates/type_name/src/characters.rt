// The characters of type strings.
ghost use Rattle.std.specs.Prelude.{◌≡◌};
ghost use Rattle.type_name.specs.Names.{blank, alphanumeric, of_name, of_parameters};

// Whether c is skipped before and behind a name.
// Internal: for the crates above.
pub fn is_blank(c: u8) -> bool
    ensures { result ≡ blank c }
{
    text::among(c, b" \t\n")
}

// Whether c is a letter or a digit.
// Internal: for the crates above.
pub fn is_alphanumeric(c: u8) -> bool
    ensures { result ≡ alphanumeric c }
{
    if c < 48 {
        return false;
    }
    if c < 58 {
        return true;
    }
    if c < 65 {
        return false;
    }
    if c < 91 {
        return true;
    }
    if c < 97 {
        return false;
    }
    c < 123
}

// Whether c may stand in a name.
// Internal: for the crates above.
pub fn is_name(c: u8) -> bool
    ensures { result ≡ of_name c }
{
    if is_alphanumeric(c) {
        return true;
    }
    text::among(c, b"-+._&")
}

// Whether c may stand inside the parameters of a type other than Reversed, besides parentheses.
// Internal: for the crates above.
pub fn is_parameter(c: u8) -> bool
    ensures { result ≡ of_parameters c }
{
    if is_alphanumeric(c) {
        return true;
    }
    text::among(c, b"-+._&,:=> ")
}
