//! The limits on the size of a netlist.

ghost use Rattle.std.specs.Prelude.{◌≡◌, None};
ghost use Rattle.link_rules.specs.Limits.{count_fault};
ghost use Rattle.link_pins.specs.Answers.{Tests};

use link_index::count_bits;
use link_rules::LinkFault;
use verilog_net::Netlist;
use xt_model::LimitKind;
use xt_model::limits::{MOST_INSTANCES, MOST_NETS};

/// Tests the limits of nets and of instances.
#[tactic(auto, unfolding(link_rules::specs::Limits::count_fault))]
pub fn check_counts(netlist: &Netlist) -> Result<(), LinkFault>
    ensures { Tests (count_fault netlist.now) result }
{
    let nets = count_bits(&netlist.nets);
    if nets > MOST_NETS as u64 {
        return Err(LinkFault::Limit {
            what: LimitKind::Nets,
            name: None,
            value: u128::from(nets),
        });
    }
    let instances = netlist.instances.len();
    if instances > MOST_INSTANCES {
        return Err(LinkFault::Limit {
            what: LimitKind::Instances,
            name: None,
            value: instances as u128,
        });
    }
    Ok(())
}
