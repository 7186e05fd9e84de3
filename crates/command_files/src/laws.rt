//! Laws of the texts of files: a told file has one text or one fault, and never both.

ghost use Rattle.std.specs.Prelude.{◌≡◌, ◌≤◌, ℕ, Bool, List, [], Option, Some};
ghost use Rattle.lkb_io.specs.Outside.{HasRisen};
ghost use Rattle.grammar_settings.specs.Forms.{Name};
ghost use Rattle.grammar_files.specs.Faults.{FoundFault};
ghost use Rattle.grammar_files.specs.Walks.{IsText};
ghost use Rattle.endings.specs.Meanings.{Shelves, has_failed};
ghost use Rattle.endings.specs.declared.Fault.{Fault};
ghost use Rattle.command_files.specs.Told.{never, told_of, IsOfShelf};
ghost use Rattle.command_files.specs.Texts.{IsTextFault, LacksText};

/// What a command shows of a file that it reads, whatever it does with it: where the files are told and the shelf doesn't fail, a file has
/// one text or one fault, and never both; and where the shelf counts no fault, the fault that comes is that of the file.
pub fn text_laws()
    ensures one_text { (files : Name → Option (List ℕ)) (name : Name) (a b : List ℕ)
        → IsText (Some files) name a → IsText (Some files) name b → a ≡ b }
    ensures one_fault { (files : Name → Option (List ℕ)) (name : Name) (f g : FoundFault)
        → IsTextFault (Some files) never name f → IsTextFault (Some files) never name g → f ≡ g }
    ensures not_both { (files : Name → Option (List ℕ)) (name : Name) (text : List ℕ) (f : FoundFault)
        → IsText (Some files) name text → IsTextFault (Some files) never name f → ⊥ }
    ensures calm { (h : Shelves) (name : Name) (f : FoundFault)
        → IsTextFault h.files (has_failed h) name f → IsOfShelf h (told_of f []) → (HasRisen h.faults_old h.faults_new → ⊥)
        → IsTextFault h.files never name f }
{}

/// A file that is read late in a run has for the whole run the fault that it has then.
pub fn late_text()
    ensures { (part whole : Shelves) (name : Name) (verbose : Bool) (fault : Fault)
        → part.files ≡ whole.files → whole.faults_old ≤ part.faults_old → part.faults_new ≡ whole.faults_new → part.asked_new ≡ whole.asked_new
        → LacksText part name verbose fault → LacksText whole name verbose fault }
{}
