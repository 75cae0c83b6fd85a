ghost use Rattle.dependencies.specs.Dependencies.{DependenciesDecide};

/// A session that gives the same answers to all that the run of another asks, and has the same limit, has the same run.
pub fn dependencies_decide()
    ensures { DependenciesDecide }
{}
