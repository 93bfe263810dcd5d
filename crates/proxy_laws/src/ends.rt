ghost use Rattle.std.specs.Prelude.{◌≡◌, List, ℕ, Some};
ghost use Rattle.kp_edge.specs.declared.end.End.{End};
ghost use Rattle.filter_core.specs.Decision.{Turn};
ghost use Rattle.conn_rules.specs.State.{State};
ghost use Rattle.conn_rules.specs.History.{Entry, IsHistory};
ghost use Rattle.conn_core.specs.Chained.{chained};
ghost use Rattle.proxy_laws.specs.ChainEnds.{OwnWayOrigin};

use conn_rules::causes_law;

/// Each end of a cut comes in its own way, in every history of a connection under a chain of filters. So `ended` comes only of the
/// client's end with no bytes left and no death before it, and `bad-body` only of a client's frame.
pub fn chain_ends_law()
    ensures { (chain : List Turn) (limit : ℕ) (hs : List Entry) (s : State) (k : ℕ) (why : End) → IsHistory (chained chain limit) hs s → s.causes.cut ≡ Some (k, why) → OwnWayOrigin (chained chain limit) hs s k why }
{
    causes_law();
}
