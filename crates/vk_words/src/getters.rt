// Values by their names.

ghost use Rattle.std.specs.Prelude.{◌≡◌, Some, IfOk, [], is_some, true, false, map, option_map, unwrap_or, codes};
ghost use Rattle.clap.specs.Words.{all_of, first_of, found_of, rows_of};
ghost use Rattle.vk_words.specs.Reading.{is_true_text};

use clap::ArgMatches;
use std::alloc::{AllocError, Global};

/// The first value of a name that has one.
pub fn needed<'a>(matches: &ArgMatches<'a>, id: &str) -> &'a str
    requires { is_some (first_of id.now (rows_of (found_of matches.now))) ≡ true }
    ensures { first_of id.now (rows_of (found_of matches.now)) ≡ Some result.now }
{
    match matches.get_str(id) {
        Some(text) => text,
        None => unreachable!(),
    }
}

/// The first value of a name, where it has one.
pub fn optional<'a>(matches: &ArgMatches<'a>, id: &str) -> Option<&'a str>
    ensures { first_of id.now (rows_of (found_of matches.now)) ≡ option_map (λ s. s.now) result }
{
    matches.get_str(id)
}

/// All values of a name.
pub fn listed<'a>(
    alloc: Global,
    matches: &ArgMatches<'a>,
    id: &str,
) -> Result<Vec<&'a str>, AllocError>
    ensures { IfOk result (λ v. unwrap_or (all_of id.now (rows_of (found_of matches.now))) [] ≡ map (λ s. s.now) v.items) }
{
    match matches.get_strs(id) {
        Some(texts) => {
            let mut all = Vec::new(alloc);
            all.extend_from_slice(texts)?;
            Ok(all)
        }
        None => Ok(Vec::new(alloc)),
    }
}

/// Whether a flag was used, which gives it the value `true`.
pub fn has_flag(matches: &ArgMatches<'_>, id: &str) -> bool
    ensures { result ≡ is_true_text (first_of id.now (rows_of (found_of matches.now))) }
{
    match optional(matches, id) {
        Some(text) => text == "true",
        None => false,
    }
}
