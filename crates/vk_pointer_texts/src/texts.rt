// The two parts of a pointer's text.

ghost use Rattle.std.specs.Prelude.{◌≡◌, IfSome, option_map, ℤ, pos, neg_ℤ, ◌≤ℤ◌};
ghost use Rattle.vk_pointer_texts.specs.Texts.{place_of, steps_of};

/// What a pointer's text says.
#[derive(Clone, Copy)]
pub struct Place<'a> {
    /// The name of an array.
    pub name: &'a str,
    /// How many elements from its first one on; none where what is behind the name is no number of them.
    pub offset: Option<i32>,
}

// The number of elements, at most 2147483647, that digits write.
fn steps_of(digits: &str) -> Option<i32>
    ensures steps { result ≡ option_map pos (steps_of digits.now) }
    ensures least { IfSome result (λ n. pos 0 ≤ℤ n) }
{
    if digits.starts_with('+') {
        return None;
    }
    if digits.starts_with('-') {
        return None;
    }
    digits.parse::<i32>().ok()
}

// So many elements before the first one.
fn steps_back(digits: &str) -> Option<i32>
    ensures { result ≡ option_map (λ n. neg_ℤ (pos n)) (steps_of digits.now) }
{
    match steps_of(digits) {
        Some(steps) => Some(-steps),
        None => None,
    }
}

/// The array's name and the offset of a text of the form NAME, NAME+K or NAME-K.
pub fn place_of(text: &str) -> Place<'_>
    ensures name { result.name.now ≡ (place_of text.now).name }
    ensures offset { result.offset ≡ (place_of text.now).offset }
{
    if let Some((name, digits)) = text.split_once('+') {
        return Place {
            name,
            offset: steps_of(digits),
        };
    }
    match text.split_once('-') {
        Some((name, digits)) => Place {
            name,
            offset: steps_back(digits),
        },
        None => Place {
            name: text,
            offset: Some(0),
        },
    }
}
