// What a touch leaves to do.
use crate::phase::Phase;
use plain_model::nest_op::NestAnswer;
use std::ops::ControlFlow;

// Either the operation goes on with another touch, or it has its answer.
pub type Step = ControlFlow<NestAnswer, Phase>;
