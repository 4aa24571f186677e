// Classes of bytes.
ghost use Rattle.std.specs.Prelude.{◌≡◌};
ghost use Rattle.reading.specs.Token.{is_digit, is_running, is_separating};

#[tactic(auto, unfolding(reading::specs::Token::is_digit, words::specs::Lists::within))]
pub fn is_digit(b: u8) -> bool
    ensures { result ≡ is_digit b }
{
    b.is_ascii_digit()
}

pub fn is_running(b: u8) -> bool
    ensures { result ≡ is_running b }
{
    // Letters first: most bytes of a name are letters, and two tests settle them.
    if b'a' <= b && b <= b'z' {
        return true;
    }
    match b {
        b'0'..=b'9' => true,
        b'!' | b'?' | b'*' | b'<' | b'=' | b'>' | b'/' | b'+' | b'-' | b'.' | b'_' => true,
        _ => false,
    }
}

#[tactic(auto, unfolding(reading::specs::Token::is_separating, words::specs::Lists::any_of, words::specs::Text::bytes))]
pub fn is_separating(b: u8) -> bool
    ensures { result ≡ is_separating b }
{
    matches!(b, b' ' | b'\t' | b'\n' | b'\r')
}
