//! Cutting texts apart.

ghost use Rattle.std.specs.Option.{option_map};
ghost use Rattle.rehearse.specs.Numbers.{Finds};
ghost use Rattle.rehearse.specs.Reading.{CutAt};

/// What is before the first of these bytes, and what is behind it; `None` where there is none.
pub fn cut_at(text: &[u8], byte: u8) -> Option<(&[u8], &[u8])>
    ensures { Finds (CutAt byte text.now) (option_map (λ x. (x.0.now, x.1.now)) result) }
{
    for (place, here) in text.iter().enumerate() {
        if *here == byte {
            return Some((&text[..place], &text[place + 1..]));
        }
    }
    None
}
