//! What the windows of a design mean: table values, wire delays, overlap, the window operator, its least
//! and greatest fixpoint, the envelope, and barriers. Definitions, and the laws that they obey.
#![tactic(auto)]

mod answer_laws;
mod laws;
mod word_laws;

pub use answer_laws::{
    answers_are_symmetric, answers_bound_windows, answers_decide, answers_have_one_list,
    answers_have_windows, answers_widen, coupled_answers_matter, sums_have_room,
    whole_factors_are_exact,
};
pub use laws::{
    closed_is_extreme, earlier_bound_respects, either_bound_respects, envelope_contains,
    envelope_exists, envelope_fits_narrowing, envelope_is_barrier, envelope_is_unique,
    extreme_is_unique, fixpoints_lie_between, live_windows_have_room, operator_is_monotone,
    operator_reads_little, operator_respects, operator_stays_in_range, quiet_fits_widening,
    ranges_grow, respecting_lies_within, steps_keep_fitting, steps_keep_on, widest_contains,
    widest_is_monotone, words_respect_together,
};
pub use word_laws::{
    further_is_least, no_further_is_by_words, numbers_are_bounds, numbers_are_windows,
    onward_is_monotone, onward_reads_little, read_list_is_whole, rounds_use_room,
    words_are_windows, words_keep_on,
};
