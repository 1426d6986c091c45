//! Laws of runs of which each goes on from the one before. A law is the contract of a function that
//! does nothing, and is proved as such.
ghost use Rattle.std.specs.Prelude.{◌≡◌, ◌∷◌, List};
ghost use Rattle.tree_core.specs.Machine.{Machine, new_machine};
ghost use Rattle.tree_core.specs.StandsFor.{StoredTree, StandsFor};
ghost use Rattle.run_records.specs.Runs.{IsLegal};
ghost use Rattle.s6_replay.specs.Checking.{AreLegal};
ghost use Rattle.s6_script.specs.Script.{script};
ghost use Rattle.s6_script.specs.declared.version.Version.TheVariants.{Two};
ghost use Rattle.locked_services.specs.Chain.{ClosedRun, AreChained, AreOneRun, chain_steps};
ghost use Rattle.locked_services.specs.Recording.{chain_recorded, chain_text};

/// Where each run was opened on the tree that the one before gave back, they are one run: all their
/// steps in order are a legal history, and the last tree stands for its end. Where the first tree
/// is new, this history begins with the new machine.
pub fn chain()
    ensures one { (tree : StoredTree) → (runs : List ClosedRun) → AreChained tree runs
        → AreOneRun tree runs }
    ensures start { (tree : StoredTree) → (runs : List ClosedRun) → StandsFor tree new_machine
        → AreChained tree runs → IsLegal new_machine (chain_steps runs) }
{}

/// The texts of such runs in a row, where only the first has the head line, are one recorded
/// script. Where the first run began with a new tree, the replies in the script are those of the
/// machine.
pub fn recording()
    ensures script { (run : ClosedRun) → (runs : List ClosedRun)
        → chain_text (run ∷ runs) ≡ script Two (chain_recorded (run ∷ runs)) }
    ensures legal { (tree : StoredTree) → (runs : List ClosedRun) → StandsFor tree new_machine
        → AreChained tree runs → AreLegal (chain_recorded runs) }
{}
