//! Numbers that options say.
ghost use Rattle.std.specs.Prelude.{◌≡◌, ◌≤◌, ◌⊎◌, ℕ, IfNone, IfSome};
ghost use Rattle.bl_options.specs.Said.{HasNumber, HasNumberOr, IsSaid};

use clap::ArgMatches;
use clap::parser::ValueSource;

/// A number that is not in its range.
#[derive(Debug, Drop)]
pub struct OutOfRange;

/// The number of an option, where it is `least` to `most`.
pub fn number(found: &ArgMatches<'_>, name: &str, least: u32, most: u32) -> Option<u32>
    ensures range { IfSome result (λ n. (least ≤ n) × (n ≤ most)) }
    ensures written { IfSome result (HasNumber found.now name.now) }
    ensures none { IfNone result ((n : ℕ) → HasNumber found.now name.now n → least ≤ n → n ≤ most → ⊥) }
{
    let number = found.get_one::<u32>(name)?;
    if number < least || number > most {
        return None;
    }
    Some(number)
}

/// Whether the option of this name was said, so that it has not its default.
pub fn is_said(options: &ArgMatches<'_>, name: &str) -> bool
    ensures { IsSaid options.now name.now result }
{
    match options.value_source(name) {
        Some(ValueSource::CommandLine) => true,
        Some(ValueSource::DefaultValue) => false,
        None => options.contains_id(name),
    }
}

/// The number of an option, where it is `least` to `most`; `most` where the option was not said.
pub fn number_or_most(options: &ArgMatches<'_>, name: &str, least: u32, most: u32) -> Option<u32>
    ensures range { IfSome result (λ n. ((n ≡ most) ⊎ (least ≤ n)) × (n ≤ most)) }
    ensures written { IfSome result (HasNumberOr options.now name.now most) }
    ensures none { IfNone result ((n : ℕ) → HasNumberOr options.now name.now most n → least ≤ n → n ≤ most → ⊥) }
{
    if is_said(options, name) {
        number(options, name, least, most)
    } else {
        Some(most)
    }
}
