// The words of a line of the replay script: which octets each is, how many there are, and whether one is a given word.
// The line is only read, and may be any octets of any length. Assumes nothing.
ghost use Rattle.std.specs.Prelude.{◌≡◌, ◌≤◌, ◌==◌, not, length, drop};
ghost use Rattle.std.specs.List.{prefix_len};
ghost use Rattle.typed.specs.Words.{spaces as words_spaces, behind as words_behind, words, word as words_word, equal as words_equal};

const SPACE: u8 = b' ';

// How many spaces a line begins with.
fn spaces(s: &[u8]) -> usize
    ensures value { result ≡ prefix_len (λ c. c == 32) s.now }
    ensures upper_bound { result ≤ length s.now }
{
    s.iter().take_while(|c| **c == SPACE).count()
}

// What is left of a line behind the spaces that it begins with.
#[tactic(auto, using(crate::proofs::words::Walk::spaces_counted, crate::proofs::words::Walk::left_all))]
fn trimmed(s: &[u8]) -> &[u8]
    ensures { result.now ≡ drop (words_spaces s.now) s.now }
{
    &s[spaces(s)..]
}

// How many characters a line begins with that are no spaces.
fn letters(s: &[u8]) -> usize
    ensures value { result ≡ prefix_len (λ c. not (c == 32)) s.now }
    ensures upper_bound { result ≤ length s.now }
{
    s.iter().take_while(|c| **c != SPACE).count()
}

// What is left of a line behind its first word, from the next word on.
#[tactic(auto, using(crate::proofs::words::Walk::letters_counted, crate::proofs::words::Walk::left_all), unfolding(crate::specs::Words::behind))]
fn behind(s: &[u8]) -> &[u8]
    ensures { result.now ≡ words_behind s.now }
{
    trimmed(&s[letters(s)..])
}

// Word k of a line, counted from 0, as a part of the line: empty if there are fewer words.
#[tactic(auto, using(crate::proofs::words::Walk::words_steps))]
pub fn word(s: &[u8], k: usize) -> &[u8]
    ensures { result.now ≡ words_word s.now k }
{
    let mut rest = trimmed(s);
    for _i in 0..k {
        rest = behind(rest);
    }
    &rest[..letters(rest)]
}

// How many words a line has: one begins at each letter that is the first character or stands behind a space.
#[tactic(auto, using(crate::proofs::words::Walk::begun_steps), unfolding(choice::specs::Choice::pick, choice::specs::Choice::same, crate::specs::Words::begun))]
pub fn count(s: &[u8]) -> usize
    ensures { result ≡ words s.now }
{
    let mut n = 0;
    let mut space = true;
    for c in s {
        n += usize::from(space && *c != SPACE);
        space = *c == SPACE;
    }
    n
}

// Whether a word is a given word.
#[tactic(auto, using(crate::proofs::words::Walk::equal_pointwise))]
pub fn equal(s: &[u8], t: &[u8]) -> bool
    ensures { result ≡ words_equal s.now t.now }
{
    s == t
}
