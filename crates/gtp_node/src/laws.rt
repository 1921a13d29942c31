//! The laws of a network of many pairs. Their function does nothing: its contract is the law.

ghost use Rattle.gtp_node.specs.Network.{EachPairRuns, EachPairIsSafe};

/// Tunnel safety, pair by pair.
pub fn pair_by_pair()
    // What happens in a network is, of each pair, a run of that pair by itself.
    ensures runs { EachPairRuns }
    // So each pair is safe.
    ensures safe { EachPairIsSafe }
{}
