//! Readings of words, each beside its rule: an edit of the definitions breaks its row.

ghost use Rattle.std.specs.Prelude.{◌≡◌, [], ◌∷◌, Ok, codes};
ghost use Rattle.cub_words.specs.Reading.{reading, fault, Request};
ghost use Rattle.cub_words.specs.Reading.Request.{Check, Replay, Sample};
ghost use Rattle.cub_words.specs.declared.request.WordsKind.TheVariants.{U3, U5, U6, U7, U8, U9};

/// What some words mean, by the definitions alone.
pub fn words_are_read_so()
    ensures usual { reading (codes "check" ∷ codes "f" ∷ []) ≡ Ok (Check (codes "f") 4096 6 1 1) }
    ensures files { reading (codes "replay" ∷ codes "f" ∷ codes "t" ∷ []) ≡ Ok (Replay (codes "f") (codes "t")) }
    ensures zeros { reading (codes "sample" ∷ codes "10" ∷ codes "--workers" ∷ codes "01" ∷ []) ≡ Ok (Sample 10 4096 6 1) }
    ensures few { reading (codes "check" ∷ codes "--workers" ∷ codes "2" ∷ []) ≡ fault 4 U3 }
    ensures sign { reading (codes "check" ∷ codes "--=2" ∷ []) ≡ fault 2 U5 }
    ensures alone { reading (codes "check" ∷ codes "--cubes" ∷ []) ≡ fault 2 U6 }
    ensures next { reading (codes "check" ∷ codes "--workers" ∷ codes "--cubes" ∷ []) ≡ fault 3 U7 }
    ensures nothing { reading (codes "check" ∷ codes "--workers=" ∷ []) ≡ fault 2 U7 }
    ensures again { reading (codes "check" ∷ codes "--cubes=9" ∷ codes "--cubes=" ∷ []) ≡ fault 3 U8 }
    ensures foreign { reading (codes "print" ∷ codes "f" ∷ codes "--width=" ∷ []) ≡ fault 3 U9 }
{}
