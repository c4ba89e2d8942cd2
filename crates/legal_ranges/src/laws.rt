//! The law of the variables of a legal history.
ghost use Rattle.std.specs.Prelude.{All};
ghost use Rattle.case_rules.specs.Belonging.{IsRootList};
ghost use Rattle.legal_history.specs.Legal.{IsLegal};
ghost use Rattle.sparse_poly.specs.Reads.{HasVariablesBelow};
ghost use Rattle.leaf_cert.specs.Variables.{HasEntryVariablesBelow};

use legal_history::case_law;

/// All variables in the entries of a legal history are below n, where those of the root equations are.
pub fn variables_law()
    ensures { (n root budget h : _) → IsRootList root → All (HasVariablesBelow n) root → IsLegal root budget h → All (HasEntryVariablesBelow n) h }
{
    case_law();
}
