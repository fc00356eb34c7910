//! What holds of the inputs that are made of a seed and a size: each is read without fault. The
//! contract of each function is a law over the definitions alone.
ghost use Rattle.std.specs.Prelude.{◌≡◌, ◌≤◌, ℕ, length, None, Some, Ok};
ghost use Rattle.hx_text.specs.Lines.{cut_of, lines_of};
ghost use Rattle.hx_text.specs.Faults.{lines_fault};
ghost use Rattle.hx_desc.specs.Description.{input_spec};
ghost use Rattle.hx_script.specs.Grammar.{script_of};
ghost use Rattle.hx_genwork.specs.Made.{description, script, made};
ghost use Rattle.hx_app.specs.Asked.{all_asked};
ghost use Rattle.hx_app.specs.Described.{made_spec};

/// The input is cut into the description, with its line feed, and the script.
pub fn made_inputs_are_cut()
    ensures { (seed size : ℕ) → size ≤ 256
        → cut_of (made seed size) ≡ Some (description seed size, script) }
{}

/// It is short.
pub fn made_inputs_are_short()
    ensures { (seed size : ℕ) → size ≤ 256 → length (made seed size) ≤ 8192 }
{}

/// Its description is read, and describes twelve instances and a resource of so many partitions,
/// each with a list of the numbers drawn.
pub fn made_descriptions_are_read()
    ensures { (seed size : ℕ) → 1 ≤ size → size ≤ 256
        → input_spec (made seed size) ≡ Ok (made_spec seed size) }
{}

/// The lines of its script are texts of 11 bytes at most.
pub fn made_scripts_are_short_texts()
    ensures { (most : ℕ) → 11 ≤ most → lines_fault most script ≡ None }
{}

/// They are read, and bring no name.
pub fn made_scripts_are_read()
    ensures { (seed size : ℕ)
        → script_of (lines_of script) (made_spec seed size) ≡ Ok (all_asked, made_spec seed size) }
{}
