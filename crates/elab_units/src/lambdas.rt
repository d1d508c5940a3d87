// What makes the lambdas of a unit.

pub use elab_lambdas::AllLambdas as UnitLambdas;
