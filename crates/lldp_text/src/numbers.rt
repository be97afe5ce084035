//! Reads numbers among the words of a command.
ghost use Rattle.std.specs.Prelude.{◌≡◌, ◌≤◌, ◌<◌, ◌↔◌, Ok, Err, IfOk, min, IsTrue};
ghost use Rattle.std.specs.List.{AllPass};
ghost use Rattle.std.specs.Char.{is_ascii_digit};
ghost use Rattle.std.specs.Str.Parse.{digits_value};
ghost use Rattle.lldp_text.specs.Number.{number_of, is_number};
ghost use Rattle.lldp_text.specs.declared.fault.CommandFault.TheVariants.{Number, Range};

use crate::fault::CommandFault;

/// The least number that is too large for every range.
const TOO_LARGE: u32 = 65536;

fn all_digits(word: &[u8]) -> bool
    ensures { IsTrue result ↔ AllPass is_ascii_digit word.now }
{
    word.iter().all(|c| c.is_ascii_digit())
}

fn writes_number(word: &[u8]) -> bool
    ensures { result ≡ is_number word.now }
{
    !word.is_empty() && all_digits(word)
}

/// Returns the value of the digits, but at most `TOO_LARGE`.
#[tactic(auto, using(crate::proofs::NumberDigits::value_more))]
fn value_of(digits: &[u8]) -> u32
    requires { IsTrue (is_number digits.now) }
    ensures { result ≡ min (digits_value 10 digits.now) 65536 }
{
    let mut value = 0u32;
    for digit in digits {
        value = (value * 10 + u32::from(*digit - b'0')).min(TOO_LARGE);
    }
    value
}

/// Returns the value of a word of one or more decimal digits, of any length. The fault is Range if
/// the value is not from `least` to `greatest`, and Number for every other word.
pub fn number(word: &[u8], least: u16, greatest: u16) -> Result<u16, CommandFault>
    ensures value { result ≡ number_of word.now least greatest }
    ensures in_range { IfOk result (λ n. (least ≤ n) × (n ≤ greatest)) }
{
    if !writes_number(word) {
        return Err(CommandFault::Number);
    }
    let value = value_of(word);
    if value < u32::from(least) || u32::from(greatest) < value {
        return Err(CommandFault::Range);
    }
    Ok(value as u16)
}
