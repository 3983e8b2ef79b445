//! The law that an image of a journal stands for one list of blocks.
ghost use Rattle.std.specs.Prelude.{◌≡◌, ◌<◌, ◌^◌, ℕ, List, length};
ghost use Rattle.journal_file.specs.Blocks.{StandsFor};

/// The law of journal files, with nothing to run: an image stands for one list of payloads.
pub fn image_stands_for_one_list()
    ensures { (names ps qs : List (List ℕ)) (image : List ℕ) → length image < 2 ^ 64 → StandsFor names ps image → StandsFor names qs image → ps ≡ qs }
{}
