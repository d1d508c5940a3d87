//! Worked lists of words, by computation.
ghost use Rattle.std.specs.Prelude.{◌≡◌, ◌∷◌, [], List, Bool, true, not, Some, codes, option_map};
ghost use Rattle.std.specs.List.{list_all};
ghost use Rattle.clap.specs.Words.{takes, subcommand_of, first_of, all_of};
ghost use Rattle.tx_words.specs.Line.{txcc_app};
ghost use Rattle.tx_words.specs.Reads.{number_of, flag_of, pick_word, clash_word};
ghost use Rattle.tx_words.specs.Worked.{taken, refused, full_run};

/// Which of these words are taken, and what the words of one run say.
pub fn worked()
    ensures taken { list_all (takes txcc_app) taken ≡ true }
    ensures refused { list_all (λ words. not (takes txcc_app words)) refused ≡ true }
    ensures steps { option_map (λ p. number_of (codes "steps") p.1) (subcommand_of txcc_app full_run) ≡ Some (Some 1000) }
    ensures folds { option_map (λ p. flag_of (codes "fold") p.1) (subcommand_of txcc_app full_run) ≡ Some true }
    ensures picker { option_map (λ p. pick_word p.1) (subcommand_of txcc_app full_run) ≡ Some (codes "file:s") }
    ensures policy { option_map (λ p. clash_word p.1) (subcommand_of txcc_app full_run) ≡ Some (codes "polite") }
    ensures sources { option_map (λ p. all_of (codes "sources") p.1) (subcommand_of txcc_app full_run) ≡ Some (Some (codes "a.cc" ∷ codes "b.cc" ∷ [])) }
{}
