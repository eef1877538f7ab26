// A feedback record and a register's value, as they are printed, a space before each part.
use crate::page::Page;
use registers::RegisterValue;
use state_feedback::MotorFeedbackState;

pub(crate) fn put_feedback_state(page: &mut Page, state: MotorFeedbackState) {
    page.put_next(state.can_id);
    page.put_next(state.arbitration_id);
    page.put_next(state.status_code);
    page.put_status_name(state.status_name);
    page.put_measured([state.pos, state.vel, state.torq, state.t_mos, state.t_rotor]);
}

pub(crate) fn put_value(page: &mut Page, value: RegisterValue) {
    let bits = registers::value_bits(value);
    if registers::holds_u32(value) {
        page.put_numbered(b" u32 ", bits);
    } else {
        page.put_bits(b" f32 ", bits);
    }
}
