// Lines, words and numbers of a text.
ghost use Rattle.std.specs.Prelude.{◌≡◌, ◌∷◌, ◌==◌, position};
ghost use Rattle.std.specs.Option.{option_map};
ghost use Rattle.worksheet.specs.Text.{pieces, pieces_in, digit_of, number_of, exactly};

// Where the first byte `stop` stands, if there is one.
fn place_of(text: &[u8], stop: u8) -> Option<usize>
    ensures { result ≡ position (λ b. b == stop) text.now }
{
    text.iter().position(|byte| *byte == stop)
}

// The text up to the first byte `stop`, and what comes behind that byte, if there is one.
pub(crate) fn cut(text: &[u8], stop: u8) -> (&[u8], Option<&[u8]>)
    ensures { pieces stop text.now ≡ result.0.now ∷ pieces_in stop (option_map (λ x. x.now) result.1) }
{
    match place_of(text, stop) {
        Some(place) => (&text[..place], Some(&text[place + 1..])),
        None => (text, None),
    }
}

// What a digit stands for.
fn digit(byte: u8) -> Option<u32>
    ensures { result ≡ digit_of byte }
{
    byte.is_ascii_digit().then(|| u32::from(byte - b'0'))
}

// A number in digits, up to 4,294,967,295. Not str::parse, which takes a sign; and a `for`, since `?` reads better here than in try_fold.
pub(crate) fn number(word: &[u8]) -> Option<u32>
    ensures { result ≡ number_of word.now }
{
    if word.is_empty() {
        return None;
    }
    let mut value = 0u32;
    for byte in word {
        let next = 10 * u64::from(value) + u64::from(digit(*byte)?);
        value = u32::try_from(next).ok()?;
    }
    Some(value)
}

// The numbers of a line with a space between each two, if it has just N.
pub(crate) fn numbers<const N: usize>(line: &[u8]) -> Option<[u32; N]>
    ensures { result ≡ exactly N (pieces 32 line.now) }
{
    let mut found = [0u32; N];
    let mut rest = Some(line);
    for place in found.iter_mut() {
        let (word, behind) = cut(rest?, b' ');
        *place = number(word)?;
        rest = behind;
    }
    rest.is_none().then_some(found)
}
