// No code: what a list of calls of the entries does, from the contracts of `step` and `enter_string` alone, and of the exported
// ones from those of `demnyaluz_step` and `demnyaluz_enter_string`.
// Texts: what calls of `feed` and `end` write, from the contracts of `start`, `feed` and `end` alone.
#![tactic(auto)]
