//! The templates of tables.

ghost use Rattle.std.specs.Prelude.{◌≡◌, IfOk};
ghost use Rattle.liberty_groups.specs.Trees.{tree_of};
ghost use Rattle.text_forms.specs.Stops.{Gives};
ghost use Rattle.liberty_tables.specs.Units.{AreScales};
ghost use Rattle.liberty_tables.specs.Templates.{no_axes, axes_for, axes_of, template_of, add_template, templates_of};

use crate::axis::{Axes, Axis, axis_by, second_variable, variable_by};
use crate::name::only_name;
use crate::search::{attribute, first_named};
use crate::units::Scales;
use liberty_groups::Group;
use name_numbers::{NameTable, TextKey};
use std::alloc::{AllocError, Global};
use xt_lex::TextFault;

/// A template: the axes that it gives to tables of delays, and to those of checks. Its numbers are read once, whether a
/// table uses them or not; what is refused is kept for the tables that use it.
#[derive(Debug, Drop)]
pub struct Template {
    pub delay: Axes,
    pub check: Axes,
}

impl Axes {
    /// Axes of no variable and no index.
    pub fn none() -> Axes
        ensures { result ≡ no_axes }
    {
        Axes {
            first: Axis {
                variable: None,
                index: None,
            },
            second: Axis {
                variable: None,
                index: None,
            },
        }
    }
}

impl Template {
    /// The axes of a delay table, or those of a check's.
    pub fn axes_for(&self, is_delay: bool) -> &Axes
        ensures { result.now ≡ axes_for is_delay self.now }
    {
        if is_delay { &self.delay } else { &self.check }
    }
}

/// The axes that a template gives to delays, or to checks.
#[tactic(auto, unfolding(crate::specs::Templates::axes_of))]
fn axes_of(
    alloc: Global,
    bytes: &[u8],
    is_delay: bool,
    scales: Scales,
    group: &Group,
) -> Result<Axes, AllocError>
    requires { AreScales scales }
    ensures { IfOk result (λ axes. axes ≡ axes_of bytes.now is_delay scales (tree_of group.now)) }
{
    let variable = variable_by(
        alloc,
        bytes,
        is_delay,
        attribute(bytes, b"variable_1", group),
    )?;
    let behind = variable_by(
        alloc,
        bytes,
        is_delay,
        attribute(bytes, b"variable_2", group),
    )?;
    let second = second_variable(variable, behind);
    let index = attribute(bytes, b"index_1", group);
    let first = axis_by(alloc, bytes, is_delay, scales, variable, index)?;
    let index = attribute(bytes, b"index_2", group);
    let second = axis_by(alloc, bytes, is_delay, scales, second, index)?;
    Ok(Axes { first, second })
}

/// What a group declares as a template.
fn template_of(
    alloc: Global,
    bytes: &[u8],
    scales: Scales,
    group: &Group,
) -> Result<Template, AllocError>
    requires { AreScales scales }
    ensures { IfOk result (λ template. template ≡ template_of bytes.now scales (tree_of group.now)) }
{
    let delay = axes_of(alloc, bytes, true, scales, group)?;
    let check = axes_of(alloc, bytes, false, scales, group)?;
    Ok(Template { delay, check })
}

/// One more template.
#[tactic(auto, unfolding(crate::specs::Templates::add_template))]
fn add_template(
    alloc: Global,
    bytes: &[u8],
    scales: Scales,
    group: &Group,
    templates: &mut NameTable<Template>,
) -> Result<(), TextFault>
    requires { AreScales scales }
    ensures { Gives (λ u. templates.new) result
        (add_template bytes.now scales (tree_of group.now) templates.old) }
{
    let name = only_name(alloc, bytes, group)?;
    let template = template_of(alloc, bytes, scales, group)?;
    templates.set(alloc, name.as_slice(), template)?;
    Ok(())
}

/// The templates of a library, in the order of the text; of a name that is declared twice the last counts.
#[tactic(auto, unfolding(crate::specs::Templates::templates_of))]
pub fn templates_of(
    alloc: Global,
    bytes: &[u8],
    scales: Scales,
    library: &Group,
) -> Result<NameTable<Template>, TextFault>
    requires { AreScales scales }
    ensures { Gives (λ templates. templates) result (templates_of bytes.now scales (tree_of library.now)) }
{
    let mut templates = NameTable::new(alloc, TextKey::of(bytes));
    let mut rest = library.inner();
    'templates: while let Some((group, more)) = first_named(bytes, b"lu_table_template", rest) {
        add_template(alloc, bytes, scales, group, &mut templates)?;
        rest = more;
    }
    Ok(templates)
}
