//! A library with an inverter and a flip-flop, worked out by hand.

/// The text; its lines begin without white space.
pub const EXAMPLE: &str = "\
    /* demo */\n\
    library (demo) {\n\
    time_unit : \"1ns\"; capacitive_load_unit (1, pf);\n\
    lu_table_template (d2) {\n\
    variable_1 : input_net_transition; variable_2 : total_output_net_capacitance;\n\
    index_1 (\"0.0, 0.1\"); index_2 (\"0.0, 0.01\"); }\n\
    cell (INV) { area : 1.0;\n\
    pin (A) { direction : input; capacitance : 0.001; }\n\
    pin (Y) { direction : output; function : \"!A\";\n\
    timing () { related_pin : \"A\"; timing_sense : negative_unate;\n\
    cell_rise (d2) { values (\"0.010, 0.030\", \\\n\
    \"0.010, 0.030\"); }\n\
    cell_fall (d2) { values (\"0.010, 0.030\", \"0.010, 0.030\"); }\n\
    rise_transition (scalar) { values (\"0.020\"); }\n\
    fall_transition (scalar) { values (\"0.020\"); } } } }\n\
    cell (DFF) { ff (IQ, IQN) { clocked_on : \"CK\"; next_state : \"D\"; }\n\
    pin (CK) { direction : input; clock : true; capacitance : 0.001; }\n\
    pin (D) { direction : input; capacitance : 0.001;\n\
    timing () { related_pin : \"CK\"; timing_type : setup_rising;\n\
    rise_constraint (scalar) { values (\"0.030\"); }\n\
    fall_constraint (scalar) { values (\"0.030\"); } }\n\
    timing () { related_pin : \"CK\"; timing_type : hold_rising;\n\
    rise_constraint (scalar) { values (\"0.010\"); }\n\
    fall_constraint (scalar) { values (\"0.010\"); } } }\n\
    pin (Q) { direction : output;\n\
    timing () { related_pin : \"CK\"; timing_type : rising_edge;\n\
    cell_rise (d2) { values (\"0.050, 0.070\", \"0.050, 0.070\"); }\n\
    cell_fall (d2) { values (\"0.050, 0.070\", \"0.050, 0.070\"); }\n\
    rise_transition (scalar) { values (\"0.020\"); }\n\
    fall_transition (scalar) { values (\"0.020\"); } } } }\n\
    }\n\
    ";

/// What it is. The delays of the inverter are in the tables 0 and 1, its slews in 2 and 3; the setup of the data pin is
/// in 4 and 5, its hold in 6 and 7; the delays of the flip-flop are in 8 and 9, its slews in 10 and 11.
pub const EXAMPLE_SHOWN: &str = "\
scales 6 6
cell INV
pin A Input 1000
pin Y Output 0
timing Combinational Negative 0 1 2 3 A
cell DFF
pin CK Input 1000
pin D Input 1000
timing SetupRising Non 4 5 - - CK
timing HoldRising Non 6 7 - - CK
pin Q Output 0
timing RisingEdge Non 8 9 10 11 CK
slews 0 100000; loads 0 10000; values 10000 30000 10000 30000
slews 0 100000; loads 0 10000; values 10000 30000 10000 30000
slews 0; loads 0; values 20000
slews 0; loads 0; values 20000
slews 0; loads 0; values 30000
slews 0; loads 0; values 30000
slews 0; loads 0; values 10000
slews 0; loads 0; values 10000
slews 0 100000; loads 0 10000; values 50000 70000 50000 70000
slews 0 100000; loads 0 10000; values 50000 70000 50000 70000
slews 0; loads 0; values 20000
slews 0; loads 0; values 20000
";
