// The prefix tree of a word list (document 02, T-05 and T-07), built in arrays as the list is read byte by byte.
#![tactic(auto)]

ghost use Rattle.std.specs.Prelude.{◌≡◌, false, ◌+◌, ◌<◌, ◌≤◌, length, MatchOption};
ghost use Rattle.lists.specs.Lists.{lowest};
ghost use Rattle.alphabet.specs.Labels.{labels_of_character};
ghost use Rattle.wordlist.specs.Words.{strange};
ghost use Rattle.wordlist_build.specs.Arrays.{Roomy, leads_on, pushed, pushes, moved};
ghost use Rattle.wordlist_build.specs.State.{ReadsCharacter, EndsLine, ReadsByte, Readable, Builds};

use alphabet::count_labels;

// The prefix tree in arrays: for each letter its label, the character that the label means, its parent, which is the head of what is before
// it, the head of its own prefix, and whether a word ends with it. The head of a prefix is the number of its first letter, 0 for the empty
// prefix. `at` is the head of what has been read of the line. If there are more than 127 letters, so says `letters`, and the arrays mean
// nothing. (No Option in its place: the theorems `character_over`, `character_full` and `line_over` speak of a tree with so many letters.
// Arrays beside one another, not an array of letters: `form_encode` is lent the labels and the marks each as a list of its own.)
#[derive(Clone, Copy)]
pub struct Trie {
    pub letters: usize,
    pub at: u8,
    pub labels: [u8; 127],
    pub characters: [u8; 127],
    pub parents: [u8; 127],
    pub heads: [u8; 127],
    pub last: [bool; 127],
}

impl Trie {
    // Nothing has been read.
    fn new() -> Trie
        ensures { (result.letters ≡ 0) × (result.at ≡ 0) }
    {
        Trie {
            letters: 0,
            at: 0,
            labels: [0; 127],
            characters: [0; 127],
            parents: [0; 127],
            heads: [0; 127],
            last: [false; 127],
        }
    }

    // The first letter that goes on from what has been read with this character.
    fn next_letter(&self, character: u8) -> Option<usize>
        requires { self.now.letters ≤ 127 }
        ensures { MatchOption result (lowest (leads_on self.now character) self.now.letters ≡ 0)
            (λ j. (j ≡ lowest (leads_on self.now character) self.now.letters) × (0 < j)) }
    {
        for i in 0..self.letters {
            if self.parents[i] == self.at && self.characters[i] == character {
                return Some(i + 1);
            }
        }
        None
    }

    // One letter more, after what has been read.
    fn push(&mut self, label: u8, character: u8, head: u8)
        requires { self.old.letters < 127 }
        ensures { self.new ≡ pushed self.old character head label }
    {
        let n = self.letters;
        self.labels[n] = label;
        self.characters[n] = character;
        self.parents[n] = self.at;
        self.heads[n] = head;
        self.last[n] = false;
        self.letters = n + 1;
    }

    // A letter for each label of the character; their prefix is then what has been read.
    fn push_all(&mut self, alphabet: &[u8], character: u8)
        requires { (length alphabet.now ≤ 95) × (self.old.letters + length (labels_of_character alphabet.now character) ≤ 127) }
        ensures { self.new ≡ moved (pushes self.old character (self.old.letters + 1) (labels_of_character alphabet.now character)) (self.old.letters + 1) }
    {
        let head = (self.letters + 1) as u8;
        for (i, &c) in alphabet.iter().enumerate() {
            if c == character {
                self.push((i + 1) as u8, character, head);
            }
        }
        self.at = head;
    }

    // One character more of the line. Over 127 letters nothing is stored.
    fn read_character(&mut self, alphabet: &[u8], character: u8)
        requires { (length alphabet.now ≤ 95) × (1 ≤ length (labels_of_character alphabet.now character)) }
        ensures roomy { Roomy self.new }
        ensures reads { ReadsCharacter alphabet.now character self.old self.new }
    {
        if 127 < self.letters {
            return;
        }
        if let Some(letter) = self.next_letter(character) {
            self.at = letter as u8;
            return;
        }
        if 127 < self.letters + count_labels(alphabet, character) {
            self.letters = 128;
            return;
        }
        self.push_all(alphabet, character);
    }

    // The line ends here: a word ends with each letter of what has been read.
    fn end_line(&mut self)
        ensures roomy { Roomy self.new }
        ensures ends { EndsLine self.old self.new }
    {
        if 127 < self.letters {
            return;
        }
        for i in 0..self.letters {
            self.last[i] |= self.heads[i] == self.at;
        }
        self.at = 0;
    }

    // The next byte of the list.
    fn read_byte(&mut self, alphabet: &[u8], b: u8)
        requires { (length alphabet.now ≤ 95) × (strange alphabet.now b ≡ false) }
        ensures roomy { Roomy self.new }
        ensures reads { ReadsByte alphabet.now b self.old self.new }
    {
        if b == b'\n' {
            self.end_line();
        } else {
            self.read_character(alphabet, b);
        }
    }
}

// The letters of a list that refusals 21 and 8 do not turn away.
pub fn build(alphabet: &[u8], list: &[u8]) -> Trie
    requires { (length alphabet.now ≤ 95) × Readable alphabet.now list.now }
    ensures { Builds alphabet.now list.now result }
{
    let mut trie = Trie::new();
    for &b in list {
        trie.read_byte(alphabet, b);
    }
    trie
}
