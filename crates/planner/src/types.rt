use plans::Limits;

// What a plan is made for: the limits of the workers, the policy by which ready tasks are ranked (1 or 2), and the link.
// The policy is a number and no enum: any number may be asked for, and by a rule of the project one that is no policy is refused by its position.
#[derive(Clone, Copy)]
pub struct Planner<'a, L> {
    pub limits: Limits,
    pub policy: u32,
    pub link: &'a L,
}
