//! How many parts the value has that a seed gives.
ghost use Rattle.std.specs.Prelude.{◌≡◌, Option};
ghost use Rattle.oer_random.specs.Weight.{default_weight, optional_weight, part_weight, total, weight as spec_weight, weight_additions, weight_fields};
ghost use Rattle.oer_random.specs.Words.{word as spec_word, words as spec_words};
ghost use Rattle.oer_skeleton.specs.Skeleton.{is_legal as spec_is_legal};
ghost use Rattle.oer_skeleton.specs.Sound.{AdditionsHaveItems, FieldsHaveItems, HasItems};
ghost use Rattle.oer_skeleton.specs.Weight.{Leaves};
ghost use Rattle.oer_values.specs.ShapeView.{additions_of, fields_of, need_of, type_of};

use crate::choice::taken;
use crate::count::{elements, string_size};
use crate::words::{next, word};
use oer_skeleton::{after, is_legal};
use oer_values::{Addition, Field, Need, Shape, known_additions, known_later};
use rand_core::SeedableRng;
use rand_xoshiro::SplitMix64;

/// Of so many parts that may be left, what is left after those of the value. None where there are more.
#[cycle(weight)]
#[tactic(auto, using(oer_values::proofs::Shapes::shapes))]
pub(crate) fn weigh(shape: &Shape, room: u8, seed: u64, left: u64) -> Option<u64>
    requires { HasItems (type_of shape.now) }
    ensures { Leaves result left (spec_weight room seed (type_of shape.now)) }
{
    if left == 0 {
        return None;
    }
    let left = left - 1;
    match shape {
        Shape::BitString(size) => after(string_size(*size, seed), left),
        Shape::OctetString(size) => after(string_size(*size, seed), left),
        Shape::Ia5(size) => after(string_size(*size, seed), left),
        Shape::Visible(size) => after(string_size(*size, seed), left),
        Shape::Numeric(size) => after(string_size(*size, seed), left),
        Shape::Printable(size) => after(string_size(*size, seed), left),
        Shape::Utf8(size) => after(string_size(*size, seed), left),
        Shape::Sequence { root, additions } => {
            let Some(left) = weigh_fields(root, room, seed, left) else {
                return None;
            };
            weigh_additions(known_additions(additions), room, u64::MAX - seed, left)
        }
        Shape::SequenceOf { size, item } => {
            let count = elements(room, is_legal(item), *size, seed);
            weigh_list(item, room.saturating_sub(1), count, seed, left)
        }
        Shape::Choice { root, additions } => {
            let alternative = taken(root, known_later(additions), seed);
            weigh(&alternative.shape, room, word(seed), left)
        }
        _ => Some(left),
    }
}

#[cycle(weight)]
fn weigh_fields(fields: &[Field], room: u8, seed: u64, left: u64) -> Option<u64>
    requires { FieldsHaveItems (fields_of fields.now) }
    ensures { Leaves result left (weight_fields room seed (fields_of fields.now)) }
{
    let mut rng = SplitMix64::seed_from_u64(seed);
    let mut left = left;
    for field in fields {
        let Some(rest) = weigh_component(field, room, next(&mut rng), left) else {
            return None;
        };
        left = rest;
    }
    Some(left)
}

#[cycle(weight)]
fn weigh_component(field: &Field, room: u8, seed: u64, left: u64) -> Option<u64>
    requires { HasItems (type_of field.now.shape) }
    ensures { Leaves result left (part_weight (need_of field.now.need)
        (spec_is_legal (type_of field.now.shape)) seed (spec_weight room (spec_word seed) (type_of field.now.shape))) }
{
    match &field.need {
        Need::Must => weigh(&field.shape, room, word(seed), left),
        Need::May => weigh_optional(&field.shape, room, seed, left),
        Need::Default(_) => weigh_default(&field.shape, room, seed, left),
    }
}

#[cycle(weight)]
fn weigh_optional(shape: &Shape, room: u8, seed: u64, left: u64) -> Option<u64>
    requires { HasItems (type_of shape.now) }
    ensures { Leaves result left (optional_weight
        (spec_is_legal (type_of shape.now)) seed (spec_weight room (spec_word seed) (type_of shape.now))) }
{
    if is_legal(shape) && seed % 2 == 0 {
        return weigh(shape, room, word(seed), left);
    }
    after(1, left)
}

#[cycle(weight)]
fn weigh_default(shape: &Shape, room: u8, seed: u64, left: u64) -> Option<u64>
    requires { HasItems (type_of shape.now) }
    ensures { Leaves result left (default_weight
        (spec_is_legal (type_of shape.now)) seed (spec_weight room (spec_word seed) (type_of shape.now))) }
{
    match seed % 3 {
        0 => after(1, left),
        1 => after(1, left),
        _ => {
            if !is_legal(shape) {
                return after(1, left);
            }
            weigh(shape, room, word(seed), left)
        }
    }
}

#[cycle(weight)]
fn weigh_additions(additions: &[Addition], room: u8, seed: u64, left: u64) -> Option<u64>
    requires { AdditionsHaveItems (additions_of additions.now) }
    ensures { Leaves result left (weight_additions room seed (additions_of additions.now)) }
{
    let mut rng = SplitMix64::seed_from_u64(seed);
    let mut left = left;
    for addition in additions {
        let Some(rest) = weigh_optional(&addition.shape, room, next(&mut rng), left) else {
            return None;
        };
        left = rest;
    }
    Some(left)
}

#[cycle(weight)]
fn weigh_list(item: &Shape, room: u8, count: u64, seed: u64, left: u64) -> Option<u64>
    requires { HasItems (type_of item.now) }
    ensures { Leaves result left (total (λ x. spec_weight room x (type_of item.now)) (spec_words count seed)) }
{
    let mut rng = SplitMix64::seed_from_u64(seed);
    let mut left = left;
    for _ in 0..count {
        let Some(rest) = weigh(item, room, next(&mut rng), left) else {
            return None;
        };
        left = rest;
    }
    Some(left)
}
