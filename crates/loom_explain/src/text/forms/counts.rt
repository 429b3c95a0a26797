//! Forms of operations of counted references and of tracked values.
use crate::text::forms::{DATA_OUT, Form, Kind};
use loom_objects::operation::{ArcOp, TrackOp};

/// What is asked of who uses a counted reference.
const REFERENCE: &str = "a reference is to be left, and the value is to be in";

/// What is asked of who uses a tracked value.
const VALUE_IN: &str = "the value is to be in";

static ARC_NEW: Form = makes!(Kind::Arc, "Arc::new", REFERENCE);

static ARC_CLONE: Form = on!(Kind::Arc, ".clone()", Clones, REFERENCE);

static ARC_DROP: Form = on!(Kind::Arc, ".drop()", Drops, REFERENCE);

static ARC_GET: Form = on!(Kind::Arc, ".get()", Nothing, REFERENCE);

static ARC_GET_MUT: Form = on!(Kind::Arc, ".get_mut()", Takes, REFERENCE);

static ARC_PUT: Form = on!(Kind::Arc, ".put()", Gives, DATA_OUT);

static ARC_TRY_UNWRAP: Form =
    on!(Kind::Arc, ".try_unwrap()", Receives, REFERENCE, passes "has the one reference");

static ARC_STRONG_COUNT: Form = on!(Kind::Arc, ".strong_count()", Nothing, REFERENCE);

static TRACK_NEW: Form = makes!(Kind::Track, "Track::new", VALUE_IN);

static TRACK_GET_REF: Form = on!(Kind::Track, ".get_ref()", Nothing, VALUE_IN);

static TRACK_GET_MUT: Form = on!(Kind::Track, ".get_mut()", Takes, VALUE_IN);

static TRACK_PUT: Form = on!(Kind::Track, ".put()", Gives, DATA_OUT);

static TRACK_INTO_INNER: Form = on!(Kind::Track, ".into_inner()", TakesApart, VALUE_IN);

static TRACK_DROP: Form = on!(Kind::Track, ".drop()", TakesApart, VALUE_IN);

pub(crate) fn arc_form(op: &ArcOp<()>) -> (usize, &'static Form) {
    match op {
        ArcOp::New(_) => (0, &ARC_NEW),
        ArcOp::Clone(arc) => (*arc, &ARC_CLONE),
        ArcOp::Drop(arc) => (*arc, &ARC_DROP),
        ArcOp::Get(arc) => (*arc, &ARC_GET),
        ArcOp::GetMut(arc) => (*arc, &ARC_GET_MUT),
        ArcOp::Put(arc, _) => (*arc, &ARC_PUT),
        ArcOp::TryUnwrap(arc) => (*arc, &ARC_TRY_UNWRAP),
        ArcOp::StrongCount(arc) => (*arc, &ARC_STRONG_COUNT),
    }
}

pub(crate) fn track_form(op: &TrackOp<()>) -> (usize, &'static Form) {
    match op {
        TrackOp::New(_) => (0, &TRACK_NEW),
        TrackOp::GetRef(track) => (*track, &TRACK_GET_REF),
        TrackOp::GetMut(track) => (*track, &TRACK_GET_MUT),
        TrackOp::Put(track, _) => (*track, &TRACK_PUT),
        TrackOp::IntoInner(track) => (*track, &TRACK_INTO_INNER),
        TrackOp::Drop(track) => (*track, &TRACK_DROP),
    }
}

/// The data that the operation of a counted reference hands over, if it does.
pub(crate) fn arc_data<D>(op: &ArcOp<D>) -> Option<&D> {
    match op {
        ArcOp::New(value) | ArcOp::Put(_, value) => Some(value),
        ArcOp::Clone(_)
        | ArcOp::Drop(_)
        | ArcOp::Get(_)
        | ArcOp::GetMut(_)
        | ArcOp::TryUnwrap(_)
        | ArcOp::StrongCount(_) => None,
    }
}

/// The data that the operation of a tracked value hands over, if it does.
pub(crate) fn track_data<D>(op: &TrackOp<D>) -> Option<&D> {
    match op {
        TrackOp::New(value) | TrackOp::Put(_, value) => Some(value),
        TrackOp::GetRef(_) | TrackOp::GetMut(_) | TrackOp::IntoInner(_) | TrackOp::Drop(_) => None,
    }
}
