//! Laws about the words of a line, the numbers among these words, and the fault numbers.
ghost use Rattle.std.specs.Prelude.{◌≡◌, ℕ, ◌<◌, ◌≤◌, List, [], ◌∷◌, ◌++◌, false, ◌↔◌, map, Some, Ok, Err};
ghost use Rattle.std.specs.List.{filter, range_with_len};
ghost use Rattle.lldp_text.specs.Words.{words_of, AreWords, is_separator, is_quote};
ghost use Rattle.std.specs.Char.{is_ascii_digit};
ghost use Rattle.std.specs.Str.Parse.{digits_value};
ghost use Rattle.lldp_text.specs.Number.{number_of, IsOfDigits};
ghost use Rattle.lldp_text.specs.declared.fault.CommandFault.TheVariants.{Unknown, NoSuchPort, Number, Range, Text, Extra, Quote, InUse};
ghost use Rattle.lldp_text.specs.Fault.{number_of_fault};

/// A line is split into exactly the words that it has by the grammar (`AreWords`). Among the 256
/// octets only tab and space separate words, and only `"` is a quote.
#[tactic(auto, using(crate::proofs::WordsGrammar::words_spelled))]
pub fn words_are_spelled()
    ensures words { (line : List ℕ) (words : List (List ℕ)) →
        (words_of line ≡ Some words) ↔ AreWords line words }
    ensures separators { filter is_separator (range_with_len 0 256) ≡ 0x09 ∷ 0x20 ∷ [] }
    ensures quotes { filter is_quote (range_with_len 0 256) ≡ 0x22 ∷ [] }
{}

/// A word of only digits is read as its value, however many digits it has, and is out of range
/// exactly if that value is. Any other word is not a number.
pub fn words_of_digits_alone_are_numbers()
    ensures within { (word : List ℕ) (least greatest : ℕ) → IsOfDigits word →
        least ≤ digits_value 10 word → digits_value 10 word ≤ greatest →
        number_of word least greatest ≡ Ok (digits_value 10 word) }
    ensures below { (word : List ℕ) (least greatest : ℕ) → IsOfDigits word →
        digits_value 10 word < least → number_of word least greatest ≡ Err Range }
    ensures above { (word : List ℕ) (least greatest : ℕ) → IsOfDigits word →
        greatest < digits_value 10 word → number_of word least greatest ≡ Err Range }
    ensures none { (least greatest : ℕ) → number_of [] least greatest ≡ Err Number }
    ensures others { (front back : List ℕ) (c least greatest : ℕ) → is_ascii_digit c ≡ false →
        number_of (front ++ c ∷ back) least greatest ≡ Err Number }
{}

/// Each fault of a command has a fixed number, from 1 to 8.
pub fn faults_have_fixed_numbers()
    ensures { map number_of_fault
        (Unknown ∷ NoSuchPort ∷ Number ∷ Range ∷ Text ∷ Extra ∷ Quote ∷ InUse ∷ [])
        ≡ 1 ∷ 2 ∷ 3 ∷ 4 ∷ 5 ∷ 6 ∷ 7 ∷ 8 ∷ [] }
{}
