//! The digits of the numbers below 1,000, for the page.
ghost use Rattle.std.specs.Prelude.{◌<◌};
ghost use Rattle.mapf_fields.specs.Spellings.{IsSpelling};

/// Writes out the words of the numbers below 1000 in order, from the digits that can begin a number of more than one
/// digit, and from all digits. A word has the digits of its number first, and its last byte says how many they are.
macro_rules! words {
    ([$($first:tt)*] $digits:tt) => {
        words!(front $digits [$($first $digits)*])
    };
    (front $digits:tt [$($first:tt [$($second:tt)*])*]) => {
        words!(whole $digits [$($first $digits)*] [$($($first $second $digits)*)*])
    };
    (whole [$($only:tt)*] [$($tens:tt [$($ones:tt)*])*] [$($first:tt $second:tt [$($third:tt)*])*]) => {
        [
            $([$only, 0, 0, 1],)*
            $($([$tens, $ones, 0, 2],)*)*
            $($([$first, $second, $third, 3],)*)*
        ]
    };
}

/// For each number below 1000 its digits, and then how many they are. With them a number is printed by copying four
/// bytes, with no division and no branch on the count of its digits.
static WORDS: [[u8; 4]; 1000] = words!(
    [b'1' b'2' b'3' b'4' b'5' b'6' b'7' b'8' b'9']
    [b'0' b'1' b'2' b'3' b'4' b'5' b'6' b'7' b'8' b'9']
);

/// Returns four bytes: the digits of the number come first, and the last byte says how many they are. They are handed
/// out by value, so that they stay in a register while the page is written to.
#[inline(always)]
pub fn spelling(number: u64) -> [u8; 4]
    requires { number < 1000 }
    ensures { IsSpelling number result }
{
    WORDS[number as usize]
}
