// What customers demand in a period, as a network states it or as it is drawn.
ghost use Rattle.std.specs.Prelude.{◌≡◌, ℕ, ◌<◌, ◌≤◌, List, length, sum, cond, slice_index};
ghost use Rattle.rand_pcg.specs.Pcg.{pcg32};
ghost use Rattle.network_model.specs.declared.network.Demand.TheVariants.{Drawn};
ghost use Rattle.network_model.specs.Nodes.{top_of};
ghost use Rattle.network_model.specs.Network.{is_drawn};
ghost use Rattle.node_state.specs.Draws.{demand_of, after_words, word_at};
ghost use Rattle.network_sim.specs.Machine.{station as station_at, drawn_in};

use crate::station::Station;
use network_model::Demand;
use rand_core::utils::NextWord;
use rand_pcg::Lcg64Xsh32;

/// The demand of period `t`, counted from 0. Where it has a law, the next word picks it.
fn demand(station: &Station, t: usize, words: &mut Lcg64Xsh32) -> u32
    requires { (law : List ℕ) → station.now.demand ≡ Drawn law → sum law ≤ 1000000000 }
    ensures value { result ≡ demand_of station.now.demand t (word_at words.old 0) }
    ensures words { words.new ≡ after_words words.old (cond (is_drawn station.now.demand) 1 0) }
    ensures small { result ≤ top_of station.now.demand }
{
    match &station.demand {
        Demand::Nobody => 0,
        Demand::Trace(units) => units.as_slice().get(t).copied().unwrap_or(0),
        Demand::Drawn(law) => law.pick(words.next_word()),
    }
}

/// Notes the demands of period `t`, counted from 0. For each law, in listed order, one word is taken.
pub fn draw_demands(stations: &[Station], t: usize, words: &mut Lcg64Xsh32, demands: &mut [u32])
    requires all { length demands.old ≡ length stations.now }
    requires light { (k : ℕ) (law : List ℕ) → k < length stations.now → (station_at stations.now k).demand ≡ Drawn law → sum law ≤ 1000000000 }
    ensures all { length demands.new ≡ length demands.old }
    ensures each { (k : ℕ) → k < length stations.now → slice_index demands.new k ≡ demand_of (station_at stations.now k).demand t (word_at words.old (drawn_in stations.now k)) }
    ensures small { (k : ℕ) → k < length stations.now → slice_index demands.new k ≤ top_of (station_at stations.now k).demand }
    ensures words { words.new ≡ after_words words.old (drawn_in stations.now (length stations.now)) }
{
    for i in 0..stations.len() {
        demands[i] = demand(&stations[i], t, words);
    }
}
