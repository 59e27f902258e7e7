//! The four files of a block with two flip-flops, and its report, found by hand.

/// A library of an inverter and a flip-flop.
pub const LIB: &str = "\
    /* demo */\n\
    library (demo) {\n\
    \x20 time_unit : \"1ns\"; capacitive_load_unit (1, pf);\n\
    \x20 lu_table_template (d2) {\n\
    \x20   variable_1 : input_net_transition; variable_2 : total_output_net_capacitance;\n\
    \x20   index_1 (\"0.0, 0.1\"); index_2 (\"0.0, 0.01\"); }\n\
    \x20 cell (INV) { area : 1.0;\n\
    \x20   pin (A) { direction : input; capacitance : 0.001; }\n\
    \x20   pin (Y) { direction : output; function : \"!A\";\n\
    \x20     timing () { related_pin : \"A\"; timing_sense : negative_unate;\n\
    \x20       cell_rise (d2) { values (\"0.010, 0.030\", \\\n\
    \x20                                \"0.010, 0.030\"); }\n\
    \x20       cell_fall (d2) { values (\"0.010, 0.030\", \"0.010, 0.030\"); }\n\
    \x20       rise_transition (scalar) { values (\"0.020\"); }\n\
    \x20       fall_transition (scalar) { values (\"0.020\"); } } } }\n\
    \x20 cell (DFF) { ff (IQ, IQN) { clocked_on : \"CK\"; next_state : \"D\"; }\n\
    \x20   pin (CK) { direction : input; clock : true; capacitance : 0.001; }\n\
    \x20   pin (D) { direction : input; capacitance : 0.001;\n\
    \x20     timing () { related_pin : \"CK\"; timing_type : setup_rising;\n\
    \x20       rise_constraint (scalar) { values (\"0.030\"); }\n\
    \x20       fall_constraint (scalar) { values (\"0.030\"); } }\n\
    \x20     timing () { related_pin : \"CK\"; timing_type : hold_rising;\n\
    \x20       rise_constraint (scalar) { values (\"0.010\"); }\n\
    \x20       fall_constraint (scalar) { values (\"0.010\"); } } }\n\
    \x20   pin (Q) { direction : output;\n\
    \x20     timing () { related_pin : \"CK\"; timing_type : rising_edge;\n\
    \x20       cell_rise (d2) { values (\"0.050, 0.070\", \"0.050, 0.070\"); }\n\
    \x20       cell_fall (d2) { values (\"0.050, 0.070\", \"0.050, 0.070\"); }\n\
    \x20       rise_transition (scalar) { values (\"0.020\"); }\n\
    \x20       fall_transition (scalar) { values (\"0.020\"); } } } }\n\
    }\n";

/// Two flip-flops, one after the other, with an inverter between them and one before them.
pub const NETLIST: &str = "\
    `timescale 1ns/1ps\n\
    module top (ck, d, y);\n\
    \x20 input ck; input d; output y; // ports\n\
    \x20 wire q1, n1;\n\
    \x20 wire \\bus[0] ;\n\
    \x20 (* keep = 1 *) DFF f1 (.CK(ck), .D(\\bus[0] ), .Q(q1));\n\
    \x20 DFF f2 (.CK(ck), .D(n1), .Q(y));\n\
    \x20 INV g1 (.A(q1), .Y(n1));\n\
    \x20 INV g2 (.A(d), .Y(\\bus[0] ));\n\
    endmodule\n";

/// Two wires that couple.
pub const SPEF: &str = "\
    *SPEF \"IEEE 1481-1998\"\n\
    *DESIGN \"top\"\n\
    *DATE \"today\"\n\
    *VENDOR \"none\"\n\
    *PROGRAM \"hand\"\n\
    *VERSION \"1\"\n\
    *DESIGN_FLOW \"NETLIST_TYPE_VERILOG\"\n\
    *DIVIDER /\n\
    *DELIMITER :\n\
    *BUS_DELIMITER [ ]\n\
    *T_UNIT 1 NS\n\
    *C_UNIT 1 PF\n\
    *R_UNIT 1 OHM\n\
    *L_UNIT 1 HENRY\n\
    *NAME_MAP\n\
    *1 n1\n\
    *2 bus\\[0\\]\n\
    *3 g1\n\
    *4 g2\n\
    *5 f1\n\
    *6 f2\n\
    *PORTS\n\
    ck I\n\
    d I\n\
    y O\n\
    *D_NET *1 0.003\n\
    *CONN\n\
    *I *3:Y O *D INV\n\
    *I *6:D I *L 0.001\n\
    *N *1:1 *C 0 0\n\
    *CAP\n\
    1 *1:1 0.0019:0.002:0.0021\n\
    2 *1:1 *2:1 0.001\n\
    *RES\n\
    1 *3:Y *1:1 50\n\
    2 *1:1 *6:D 50\n\
    *END\n\
    *D_NET *2 0.003\n\
    *CAP\n\
    1 *2:1 0.002\n\
    2 *2:1 *1:1 0.001\n\
    *RES\n\
    1 *4:Y *2:1 100\n\
    2 *2:1 *5:D 100\n\
    *END\n";

/// A clock, delays and slews of inputs, delays and a load of an output.
pub const SDC: &str = "\
    set sdc_version 2.0\n\
    set_units -time ns -resistance kOhm -capacitance pF -voltage V -current mA\n\
    create_clock -name ck -period 1.0 -waveform {0 0.5} [get_ports ck]\n\
    set_input_delay 0.074 -clock [get_clocks ck] -min [get_ports {d}]\n\
    set_input_delay 0.100 -clock [get_clocks ck] -max [get_ports {d}]\n\
    set_input_transition 0.02 [all_inputs]\n\
    set_output_delay 0.05 -clock ck -max [get_ports y]\n\
    set_output_delay 0.01 -clock ck -min [get_ports y]\n\
    set_load -pin_load 0.002 [get_ports y]\n";

/// The report.
pub const REPORT: &str = "\
    xtalk 1\n\
    nets 6 couplings 2 pairs 1 levels 3 bound 15\n\
    period 1000.000\n\
    net ck rise least 0.000 0.000 20.000 20.000 greatest 0.000 0.000 20.000 20.000\n\
    net ck fall least 500.000 500.000 20.000 20.000 greatest 500.000 500.000 20.000 20.000\n\
    net d rise least 74.000 100.000 20.000 20.000 greatest 74.000 100.000 20.000 20.000\n\
    net d fall least 74.000 100.000 20.000 20.000 greatest 74.000 100.000 20.000 20.000\n\
    net y rise least 54.000 54.000 20.000 20.000 greatest 54.000 54.000 20.000 20.000\n\
    net y fall least 54.000 54.000 20.000 20.000 greatest 54.000 54.000 20.000 20.000\n\
    net q1 rise least 52.000 52.000 20.000 20.000 greatest 52.000 52.000 20.000 20.000\n\
    net q1 fall least 52.000 52.000 20.000 20.000 greatest 52.000 52.000 20.000 20.000\n\
    net n1 rise least 70.000 70.000 20.000 20.000 greatest 68.000 72.000 20.000 20.000\n\
    net n1 fall least 70.000 70.000 20.000 20.000 greatest 68.000 72.000 20.000 20.000\n\
    net bus[0] rise least 92.000 118.000 20.000 20.000 greatest 90.000 120.000 20.000 20.000\n\
    net bus[0] fall least 92.000 118.000 20.000 20.000 greatest 90.000 120.000 20.000 20.000\n\
    guilty n1 rise bus[0] 1.000 fast possible slow possible\n\
    guilty n1 fall bus[0] 1.000 fast possible slow possible\n\
    guilty bus[0] rise n1 1.000 fast possible slow possible\n\
    guilty bus[0] fall n1 1.000 fast possible slow possible\n\
    check f1/D rise setup 849.400 851.500\n\
    check f1/D fall setup 849.400 851.500\n\
    check f1/D rise hold 80.400 82.500\n\
    check f1/D fall hold 80.400 82.500\n\
    check f2/D rise setup 897.700 899.750\n\
    check f2/D fall setup 897.700 899.750\n\
    check f2/D rise hold 58.200 60.250\n\
    check f2/D fall hold 58.200 60.250\n\
    check y rise setup 896.000 896.000\n\
    check y fall setup 896.000 896.000\n\
    check y rise hold 64.000 64.000\n\
    check y fall hold 64.000 64.000\n\
    path setup f1/D rise 849.400\n\
    from d fall 100.000\n\
    step bus[0] rise wire 0.000 delay 20.000\n\
    to wire 0.600\n\
    path hold f2/D rise 58.200\n\
    from ck rise 0.000\n\
    step q1 fall wire 0.000 delay 52.000\n\
    step n1 rise wire 0.000 delay 16.000\n\
    to wire 0.200\n\
    end\n";

/// The four files, with their names.
pub fn files() -> [(&'static str, &'static [u8]); 4] {
    [
        ("r.lib", LIB.as_bytes()),
        ("r.v", NETLIST.as_bytes()),
        ("r.spef", SPEF.as_bytes()),
        ("r.sdc", SDC.as_bytes()),
    ]
}
