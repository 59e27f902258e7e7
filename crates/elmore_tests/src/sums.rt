//! Wires with their sums or their fault.

use crate::wire::{Wire, form_of, made};
use elmore_tree::{Resistor, Tap, TreeFault, WireForm, coefficients};
use std::alloc::Global;
use std::test::Fail;

/// A load, and of each sink the base and the coefficients of the taps.
type Sums = (i64, &'static [(i128, &'static [i128])]);

/// Whether a form has these sums.
fn has_sums(form: &WireForm, sums: &Sums) -> bool {
    let (load, sinks) = *sums;
    let forms = form.sinks.as_slice();
    form.load == load
        && forms.len() == sinks.len()
        && forms.iter().zip(sinks).all(|(form, (base, coefs))| form.base() == *base
            && form.coefs() == *coefs)
}

/// The delay to the first sink, if it is there with one factor of at most 12 for each tap.
fn delay(form: &WireForm, factors: &[u8]) -> Option<i128> {
    let sinks = form.sinks.as_slice();
    if sinks.is_empty() || factors.len() != sinks[0].coefs().len() {
        return None;
    }
    if !factors.iter().all(|factor| *factor <= 12) {
        return None;
    }
    Some(form.delay(0, factors))
}

/// 100 ohms to a node of 2 fF, then 50 ohms to a sink of 1.5 fF with a coupling capacitor of 1 fF.
const IN_A_ROW: Wire = Wire {
    ground: &[0, 2000, 1500],
    resistors: &[(0, 1, 100_000), (2, 1, 50_000)],
    taps: &[(2, 1000)],
    sinks: &[2],
};

/// A wire without resistors whose sink is the driver's node.
const ALONE: Wire = Wire {
    ground: &[5],
    resistors: &[],
    taps: &[],
    sinks: &[0],
};

/// Branches 1-2-3, 1-4-5, 1-4-6 and 7-8-9, with a sink at each node.
const BRANCHES: Wire = Wire {
    ground: &[1, 2, 3, 4, 5, 6, 7, 8, 9, 10],
    resistors: &[
        (8, 9, 90),
        (0, 1, 10),
        (4, 5, 50),
        (2, 1, 20),
        (2, 3, 30),
        (7, 0, 70),
        (1, 4, 40),
        (6, 4, 60),
        (8, 7, 80),
    ],
    taps: &[(5, 100), (2, 1000), (9, 10), (0, 7)],
    sinks: &[0, 1, 2, 3, 4, 5, 6, 7, 8, 9],
};

/// The chain 0-3-9-1-7-5-2-8-4-6, with a sink at each node in the order of the chain.
const CHAIN: Wire = Wire {
    ground: &[1, 1, 1, 1, 1, 1, 1, 1, 1, 1],
    resistors: &[
        (3, 9, 2),
        (6, 4, 9),
        (7, 1, 4),
        (0, 3, 1),
        (8, 4, 8),
        (5, 2, 6),
        (9, 1, 3),
        (7, 5, 5),
        (2, 8, 7),
    ],
    taps: &[(7, 2), (7, 0)],
    sinks: &[0, 3, 9, 1, 7, 5, 2, 8, 4, 6],
};

/// Nine nodes around the root, with a sink at each node.
const STAR: Wire = Wire {
    ground: &[100, 9, 8, 7, 6, 5, 4, 3, 2, 1],
    resistors: &[
        (0, 1, 1),
        (2, 0, 2),
        (0, 3, 3),
        (4, 0, 4),
        (0, 5, 5),
        (6, 0, 6),
        (0, 7, 7),
        (8, 0, 8),
        (0, 9, 9),
    ],
    taps: &[(4, 5)],
    sinks: &[0, 1, 2, 3, 4, 5, 6, 7, 8, 9],
};

/// A mesh of six resistors of which nothing is needed, and a resistor to the sink.
const MESH_OUTSIDE: Wire = Wire {
    ground: &[0, 5, 0, 0, 0, 0],
    resistors: &[
        (2, 3, 1),
        (2, 4, 1),
        (2, 5, 1),
        (3, 4, 1),
        (3, 5, 1),
        (4, 5, 1),
        (1, 0, 3),
    ],
    taps: &[],
    sinks: &[1],
};

const WORKED: [(Wire, Sums); 6] = [
    (IN_A_ROW, (3500, &[(425_000_000, &[150_000_000])])),
    (ALONE, (5, &[(0, &[])])),
    (
        BRANCHES,
        (
            55,
            &[
                (0, &[0, 0, 0, 0]),
                (270, &[1000, 10_000, 0, 0]),
                (410, &[1000, 30_000, 0, 0]),
                (530, &[1000, 30_000, 0, 0]),
                (990, &[5000, 10_000, 0, 0]),
                (1290, &[10_000, 10_000, 0, 0]),
                (1410, &[5000, 10_000, 0, 0]),
                (1890, &[0, 0, 700, 0]),
                (3410, &[0, 0, 1500, 0]),
                (4310, &[0, 0, 2400, 0]),
            ],
        ),
    ),
    (
        CHAIN,
        (
            10,
            &[
                (0, &[0, 0]),
                (9, &[2, 0]),
                (25, &[6, 0]),
                (46, &[12, 0]),
                (70, &[20, 0]),
                (95, &[20, 0]),
                (119, &[20, 0]),
                (140, &[20, 0]),
                (156, &[20, 0]),
                (165, &[20, 0]),
            ],
        ),
    ),
    (
        STAR,
        (
            145,
            &[
                (0, &[0]),
                (9, &[0]),
                (16, &[0]),
                (21, &[0]),
                (24, &[20]),
                (25, &[0]),
                (24, &[0]),
                (21, &[0]),
                (16, &[0]),
                (9, &[0]),
            ],
        ),
    ),
    (MESH_OUTSIDE, (5, &[(15, &[])])),
];

#[test]
fn a_tree_has_its_sums(rt: HostRuntime) -> Result<(), Fail> {
    for (number, (wire, sums)) in WORKED.iter().enumerate() {
        let form = form_of(rt.alloc(), wire)?;
        assert!(rt; has_sums(&form, sums), "wire {number}");
    }
    Ok(())
}

/// Wires and why they have no form.
const FAULTS: [(Wire, TreeFault); 7] = [
    // A ring away from the root.
    (
        Wire {
            ground: &[0, 0, 0, 1],
            resistors: &[(0, 1, 1), (1, 2, 1), (2, 3, 1), (3, 1, 1)],
            taps: &[],
            sinks: &[3],
        },
        TreeFault::NotTree,
    ),
    // A mesh of four nodes, the root among them.
    (
        Wire {
            ground: &[1, 1, 1, 1],
            resistors: &[
                (0, 1, 1),
                (0, 2, 1),
                (0, 3, 1),
                (1, 2, 1),
                (1, 3, 1),
                (2, 3, 1),
            ],
            taps: &[],
            sinks: &[3],
        },
        TreeFault::NotTree,
    ),
    // A resistor from a node to itself.
    (
        Wire {
            ground: &[0, 1],
            resistors: &[(0, 1, 1), (1, 1, 0)],
            taps: &[],
            sinks: &[1],
        },
        TreeFault::NotTree,
    ),
    // The same at a root alone.
    (
        Wire {
            ground: &[1],
            resistors: &[(0, 0, 1)],
            taps: &[],
            sinks: &[],
        },
        TreeFault::NotTree,
    ),
    // Two resistors in parallel, one each way; that node 2 is outside is not said then.
    (
        Wire {
            ground: &[0, 1, 1],
            resistors: &[(0, 1, 1), (1, 0, 2)],
            taps: &[],
            sinks: &[1, 2],
        },
        TreeFault::NotTree,
    ),
    // A tree that is joined to nothing: node 2 has the sink, node 3 capacitance.
    (
        Wire {
            ground: &[1, 0, 0, 1],
            resistors: &[(1, 2, 1), (2, 3, 1)],
            taps: &[],
            sinks: &[2],
        },
        TreeFault::NotReached(2),
    ),
    // Nodes 2 to 4 are outside; 3 has a tap without capacitance, 4 a sink, and two resistors in parallel are outside.
    (
        Wire {
            ground: &[0, 7, 0, 0, 0],
            resistors: &[(0, 1, 1), (2, 3, 1), (3, 2, 1)],
            taps: &[(3, 0)],
            sinks: &[1, 4],
        },
        TreeFault::NotReached(3),
    ),
];

#[test]
fn another_wire_has_a_fault(rt: HostRuntime) -> Result<(), Fail> {
    for (number, (wire, fault)) in FAULTS.iter().enumerate() {
        assert_eq!(rt;
            form_of(rt.alloc(), wire).err(),
            Some(*fault),
            "wire {number}"
        );
    }
    Ok(())
}

/// Factors of 0, 1, 2 and three quarters.
#[test]
fn a_tap_counts_by_its_factor_in_quarters(rt: HostRuntime) -> Result<(), Fail> {
    let form = form_of(rt.alloc(), &IN_A_ROW)?;
    for (factor, fs) in [(0, 425), (4, 575), (8, 725), (3, 537)] {
        assert_eq!(rt; delay(&form, &[factor]), Some(fs));
    }
    Ok(())
}

/// The sums of a chain of 65,536 nodes from the root, a milliohm apart and each of 1 aF, with a tap of 3 aF in the
/// middle and sinks there and at the end.
fn long_chain(alloc: Global) -> Result<WireForm, TreeFault> {
    let mut resistors = Vec::new(alloc);
    for node in 0..65_535 {
        resistors.push(Resistor {
            a: node + 1,
            b: node,
            value: 1,
        })?;
    }
    let ground = vec![in alloc; 1; 65_536]?;
    let mut taps = Vec::new(alloc);
    taps.push(Tap {
        node: 32_768,
        cap: 3,
    })?;
    let mut sinks = Vec::new(alloc);
    sinks.push(32_768)?;
    sinks.push(65_535)?;
    match made(ground, resistors, taps, sinks) {
        Some(tree) => coefficients(alloc, &tree),
        None => Err(TreeFault::NoMemory),
    }
}

/// In the middle 1 + 2 + .. + 32,768, and 32,768 for each of the 32,767 nodes after it; at the end 1 + 2 + ..
/// + 65,535.
const LONG_CHAIN: Sums = (
    65_536,
    &[(1_610_596_352, &[98_304]), (2_147_450_880, &[98_304])],
);

#[test]
fn a_chain_may_have_all_nodes(rt: HostRuntime) -> Result<(), Fail> {
    let form = long_chain(rt.alloc())?;
    assert!(rt; has_sums(&form, &LONG_CHAIN));
    Ok(())
}
