ghost use Rattle.std.specs.Prelude.{ℕ, List, map};
ghost use Rattle.lua_meaning.specs.Programs.{Module, meaning};
ghost use Rattle.lua_meaning.specs.PlainPrograms.{plain_module, IsSameRun};

/// Annotations and marks change nothing of a run but its records of marks and of operand-kind errors: the plain program has the same
/// output, the same ending and the same turns. Nothing is computed: the contract is the law.
pub fn plain_programs_run_alike()
    ensures { (ms : List Module) (words : List (List ℕ)) (input : List ℕ) (n : ℕ) → IsSameRun (meaning ms words input n) (meaning (map plain_module ms) words input n) }
{}

#[cfg(test)]
mod tests {
    use super::*;

    #[test]
    fn laws_compute_nothing() {
        plain_programs_run_alike();
    }
}
