//! What is kept by name, as definitions: entries in order of the names' bytes, each name once, as a `BTreeMap` from
//! texts is seen. What stands under a name, and the entries with one more, one changed or one less.
#![tactic(auto)]
