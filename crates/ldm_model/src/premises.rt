//! The premises of the laws can be met: values that meet them. This function does nothing: its contract says so.
ghost use Rattle.ldm_model.specs.Premises.{InsertsFirst, ReadsOn, FillsOn};

/// What the laws ask of a product, of a point of a reader's life and of a point of a reservation can be: a first
/// insertion; a reader of a legal history that is about to step; a reservation of a legal history that is filled and
/// about to be committed.
pub fn premises_are_met()
    ensures insertable { InsertsFirst }
    ensures point { ReadsOn }
    ensures filling { FillsOn }
{}
