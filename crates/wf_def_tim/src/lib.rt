//! The TIM element, as a definition (IEEE 802.11-2012, 8.4.2.7). A beacon carries it; it announces for
//! which sleeping stations frames are waiting. `tim_element count period aids` gives its octets, and
//! `with_group_bit` those of a beacon that announces group frames.
#![tactic(auto)]
