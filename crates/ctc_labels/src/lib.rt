// Lists of labels (document 01, "Alphabet, labels, paths"): are they in range, and which lists are turned away.
#![tactic(auto)]

ghost use Rattle.std.specs.Prelude.{◌≡◌};
ghost use Rattle.lists.specs.Lists.{in_range};
ghost use Rattle.lists.specs.Each.{all};
ghost use Rattle.ctc_labels.specs.Calls.{label_fault};

// Is each number of a list from `low` to `high`?
pub fn all_in_range(low: usize, high: usize, list: &[u8]) -> bool
    ensures { result ≡ all (in_range low high) list.now }
{
    list.iter().all(|&x| (low..=high).contains(&usize::from(x)))
}

// Is the list turned away as no list of labels of an alphabet of k characters? (Refusal 17.)
pub fn has_fault(k: usize, low: usize, list: &[u8]) -> bool
    ensures { result ≡ label_fault k low list.now }
{
    !(1..=95).contains(&k) || list.len() > 255 || !all_in_range(low, k, list)
}
