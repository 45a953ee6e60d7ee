//! The plain form of the words, which is always accepted.
ghost use Rattle.std.specs.Prelude.{◌≡◌, ◌∷◌, [], ℕ, List, Option, Some, codes};
ghost use Rattle.hm_words.specs.Commands.{high, versions};
ghost use Rattle.hm_words.specs.Asked.{asked, replay};
ghost use Rattle.hm_words.specs.Plain.{Given, IsPlainGenerate, IsPlainReplay, generate_words, given_generate};
ghost use Rattle.hm_words.specs.Plain.{given_settings, replay_words};

/// `replay`, then options, each at most once and in any order, then one or more files: the settings are those of the
/// options, and their defaults where they are not given, and the files are these.
pub fn a_plain_replay_is_asked()
    ensures { (options : List Given) (files : List (List ℕ)) → IsPlainReplay options files
        → asked (replay_words options files) ≡ Some (replay (given_settings options) files) }
{}

/// `generate`, then two numbers, then at most one option.
pub fn a_plain_generate_is_asked()
    ensures { (number count : List ℕ) (copies : Option (List ℕ))
        → IsPlainGenerate number count copies
        → asked (generate_words number count copies) ≡ Some (given_generate number count copies) }
{}

/// Words in the plain form of each command: `replay --high 20 --versions 512 f` and `generate 7 200 --versions 512`.
pub fn there_are_plain_words()
    ensures replay { IsPlainReplay ((high, codes "20") ∷ (versions, codes "512") ∷ [])
        (codes "f" ∷ []) }
    ensures generate { IsPlainGenerate (codes "7") (codes "200") (Some (codes "512")) }
{}
