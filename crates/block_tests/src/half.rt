//! The block of two flip-flops with one of them and an inverter in a module of their own. Its report is the block's
//! with the names of these two below `h`, and with their net after those of the top.

use crate::block::{LIB, SDC};
use crate::call::{calm, compare, outcome};
use std::test::Fail;

/// A module in the place of the second flip-flop and of the inverter before it.
const NETLIST: &str = "\
`timescale 1ns/1ps
module top (ck, d, y);
  input ck; input d; output y; // ports
  wire q1;
  wire \\bus[0] ;
  (* keep = 1 *) DFF f1 (.CK(ck), .D(\\bus[0] ), .Q(q1));
  half h (.ck(ck), .q1(q1), .y(y));
  INV g2 (.A(d), .Y(\\bus[0] ));
endmodule
module half (ck, q1, y);
  input ck, q1; output y; wire n1;
  DFF f2 (.CK(ck), .D(n1), .Q(y));
  INV g1 (.A(q1), .Y(n1));
endmodule
";

/// The parasitics of the two wires that couple.
const SPEF: &str = "\
*SPEF \"x\" *C_UNIT 1 PF *R_UNIT 1 OHM
*NAME_MAP *1 h/n1 *2 bus\\[0\\] *3 h/g1 *4 g2 *5 f1 *6 h/f2
*D_NET *1 0.003 *CAP 1 *1:1 0.002 2 *1:1 *2:1 0.001 *RES 1 *3:Y *1:1 50 2 *1:1 *6:D 50 *END
*D_NET *2 0.003 *CAP 1 *2:1 0.002 2 *2:1 *1:1 0.001 *RES 1 *4:Y *2:1 100 2 *2:1 *5:D 100 *END
";

/// The report.
const REPORT: &str = "\
0 xtalk 1
nets 6 couplings 2 pairs 1 levels 3 bound 15
period 1000.000
net ck rise least 0.000 0.000 20.000 20.000 greatest 0.000 0.000 20.000 20.000
net ck fall least 500.000 500.000 20.000 20.000 greatest 500.000 500.000 20.000 20.000
net d rise least 74.000 100.000 20.000 20.000 greatest 74.000 100.000 20.000 20.000
net d fall least 74.000 100.000 20.000 20.000 greatest 74.000 100.000 20.000 20.000
net y rise least 54.000 54.000 20.000 20.000 greatest 54.000 54.000 20.000 20.000
net y fall least 54.000 54.000 20.000 20.000 greatest 54.000 54.000 20.000 20.000
net q1 rise least 52.000 52.000 20.000 20.000 greatest 52.000 52.000 20.000 20.000
net q1 fall least 52.000 52.000 20.000 20.000 greatest 52.000 52.000 20.000 20.000
net bus[0] rise least 92.000 118.000 20.000 20.000 greatest 90.000 120.000 20.000 20.000
net bus[0] fall least 92.000 118.000 20.000 20.000 greatest 90.000 120.000 20.000 20.000
net h/n1 rise least 70.000 70.000 20.000 20.000 greatest 68.000 72.000 20.000 20.000
net h/n1 fall least 70.000 70.000 20.000 20.000 greatest 68.000 72.000 20.000 20.000
guilty bus[0] rise h/n1 1.000 fast possible slow possible
guilty bus[0] fall h/n1 1.000 fast possible slow possible
guilty h/n1 rise bus[0] 1.000 fast possible slow possible
guilty h/n1 fall bus[0] 1.000 fast possible slow possible
check f1/D rise setup 849.400 851.500
check f1/D fall setup 849.400 851.500
check f1/D rise hold 80.400 82.500
check f1/D fall hold 80.400 82.500
check h/f2/D rise setup 897.700 899.750
check h/f2/D fall setup 897.700 899.750
check h/f2/D rise hold 58.200 60.250
check h/f2/D fall hold 58.200 60.250
check y rise setup 896.000 896.000
check y fall setup 896.000 896.000
check y rise hold 64.000 64.000
check y fall hold 64.000 64.000
path setup f1/D rise 849.400
from d fall 100.000
step bus[0] rise wire 0.000 delay 20.000
to wire 0.600
path hold h/f2/D rise 58.200
from ck rise 0.000
step q1 fall wire 0.000 delay 52.000
step h/n1 rise wire 0.000 delay 16.000
to wire 0.200
end
";

#[test]
fn a_block_of_two_modules_is_reported(rt: HostRuntime) -> Result<(), Fail> {
    let texts = [
        ("r.lib", LIB.as_bytes()),
        ("r.v", NETLIST.as_bytes()),
        ("r.spef", SPEF.as_bytes()),
        ("r.sdc", SDC.as_bytes()),
    ];
    let words = "report r.lib r.v r.spef r.sdc";
    let seen = outcome(&rt, rt.alloc(), words, texts.as_slice(), calm(rt.alloc()))?;
    compare(&rt, seen.as_str(), REPORT, words);
    Ok(())
}
