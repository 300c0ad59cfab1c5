//! What the definitions come to: each law is the contract of a function.
ghost use Rattle.std.specs.Prelude.{◌≡◌, ◌⊎◌, ◌++◌, ℕ, List};
ghost use Rattle.bc_key.specs.declared.error.KeyError.{KeyError};
ghost use Rattle.bc_key.specs.declared.key.Key.{Key};
ghost use Rattle.bc_keys.specs.Spelling.{SpellKeys, SpellThen, AreRefused, words_of_all};

/// Words are one list of keys or none, or they are refused for one reason at most, and never both.
pub fn one_reading()
    ensures either { (words : List ℕ) → ((keys : List Key) × SpellKeys words keys)
        ⊎ (((keys : List Key) × SpellKeys words keys) → ⊥) }
    ensures one_list { (words : List ℕ) (a b : List Key)
        → SpellKeys words a → SpellKeys words b → a ≡ b }
    ensures never_both { (words : List ℕ) (keys : List Key) (fault : KeyError)
        → SpellKeys words keys → AreRefused words fault → ⊥ }
    ensures one_fault { (words : List ℕ) (a b : KeyError)
        → AreRefused words a → AreRefused words b → a ≡ b }
{}

/// Keys are spelled by the words that are written for them, whatever follows these.
pub fn written_keys_are_spelled()
    ensures { (keys : List Key) (rest : List ℕ)
        → SpellThen (words_of_all keys ++ rest) keys rest }
{}
