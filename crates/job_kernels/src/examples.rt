//! The worked examples: two whole runs, so that there are histories of which the laws speak. The
//! function does nothing: its contract says it, and the check computes it.
ghost use Rattle.job_kernels.specs.Examples.{OneItemIsCounted, OneItemIsWhole, StepOfTwoIsCounted, StepOfTwoIsWhole};

/// A step of a stencil of two cells, and an item behind one stage of a pipeline.
pub fn worked_runs()
    ensures step_of_two { StepOfTwoIsWhole }
    ensures step_is_counted { StepOfTwoIsCounted }
    ensures one_item { OneItemIsWhole }
    ensures item_is_counted { OneItemIsCounted }
{}
