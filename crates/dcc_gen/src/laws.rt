//! Laws of made files, for every seed and size. The functions do nothing: their contracts are proved for all.

ghost use Rattle.dcc_gen.specs.Laws.{HaveOneFile};

/// A seed and a size have one file.
pub fn a_seed_and_a_size_have_one_file()
    ensures { HaveOneFile }
{}
