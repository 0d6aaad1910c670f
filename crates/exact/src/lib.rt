// No code: what it is for a reader of bytes to be exact, how exact readers are put together, and the laws. It knows nothing of CBOR.
#![tactic(auto)]
